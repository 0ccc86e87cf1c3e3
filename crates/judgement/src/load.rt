// The loads of the spans, and how they stand against the limits: the lowest span that is over its limit, and the sum of all excess.
ghost use Rattle.std.specs.Prelude.{◌≡◌, true, None, ◌-◌};
ghost use Rattle.book.specs.Book.{RouteBook, well_formed};
ghost use Rattle.book.specs.Memory.{book_of};
ghost use Rattle.judgement.specs.Judgement.{first_of, score_fc};
ghost use Rattle.judgement.specs.Holding.{Held, Room, Counted, Loads, is_over, over_in};
ghost use Rattle.judgement.specs.declared.Verdict.TheVariants.{Over};

use crate::Verdict;
use crate::judgeable::Judgeable;

// A span whose load exceeds its limit.
#[derive(Clone, Copy)]
pub(crate) struct Overload {
    pub span: u8,
    pub load: u16,
    pub limit: u8,
}

impl From<Overload> for Verdict {
    ghost from_gives = { λ o v. v ≡ Over o.span o.load o.limit };

    fn from(Overload { span, load, limit }: Overload) -> Verdict {
        Verdict::Over(span, load, limit)
    }
}

// Counts one route more into the loads; a number that no span has is passed over.
fn add_route(loads: &mut [u16; 128], route: &[u8])
    requires { Room loads.old route.now }
    ensures { Counted loads.old route.now loads.new }
{
    for span in route {
        let x = *span as usize;
        if x < 128 {
            loads[x] += 1;
        }
    }
}

// A book and the loads of its spans: how many lightpaths ride each.
#[derive(Clone, Copy)]
pub(crate) struct Loaded<'a> {
    pub judgeable: &'a Judgeable,
    pub loads: [u16; 128],
    ghost counted: { Loads judgeable.now.book loads },
}

impl<'a> Loaded<'a> {
    // The loads are counted lightpath by lightpath. The route of lightpath k stands at the start of row k, which has 16 places.
    pub(crate) fn of(b: &'a Judgeable) -> Loaded<'a>
        ensures { result.judgeable.now ≡ b.now }
    {
        let mut loads = [0u16; 128];
        for k in 0..b.book.lightpaths as usize {
            let start = 16 * k;
            let len = (b.book.len[k] as usize).min(16);
            add_route(&mut loads, &b.book.route[start..start + len]);
        }
        Loaded {
            judgeable: b,
            loads,
        }
    }

    // The lowest span that is over its limit.
    pub(crate) fn first_over(&self) -> Option<Overload>
        ensures { result ≡ first_of (is_over self.now.judgeable.now.book) (over_in self.now.judgeable.now.book) None self.now.judgeable.now.book.spans 0 }
    {
        let b = &self.judgeable.book;
        (0..b.spans).find_map(|k| {
            let load = self.loads[k as usize];
            let limit = b.limit[k as usize];
            (load > u16::from(limit)).then_some(Overload {
                span: k,
                load,
                limit,
            })
        })
    }

    // The sum of all loads above their limits: the score Fc.
    pub(crate) fn excess(&self) -> u16
        requires { Held self.now.judgeable.now.book }
        ensures { (m : RouteBook) → self.now.judgeable.now.book ≡ book_of m → well_formed m ≡ true → result ≡ score_fc m }
    {
        let b = &self.judgeable.book;
        let mut total: u16 = 0;
        for k in 0..b.spans as usize {
            total += self.loads[k].saturating_sub(u16::from(b.limit[k]));
        }
        total
    }
}
