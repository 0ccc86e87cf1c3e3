// Which numbers of a book's choices are tried.
ghost use Rattle.std.specs.Prelude.{◌<◌};

// Does something with each number below `t`, where these are at most `few`, and else with seven of them.
pub(crate) fn each_tried<F: Fn(u32)>(t: u32, few: u32, visit: F)
    requires room { 0 < few }
    requires callable { F.IsAlwaysCallable visit }
{
    if t <= few {
        for n in 0..t {
            visit(n);
        }
    } else {
        for n in [0, 1, 2, t / 3, t / 2, t - 2, t - 1] {
            visit(n);
        }
    }
}
