// Ways from piece to piece: the rounds of what is 0, 1, 2 and so on lightpaths away, and the lowest lightpath that leads nearer.
// docs/CONTRACTION.md, section 2, says which way is taken.
ghost use Rattle.std.specs.Prelude.{◌≡◌, ◌&&◌, ◌||◌, ◌<◌, eqb, get_or, Some, None};
ghost use Rattle.book.specs.Bits.{has};
ghost use Rattle.judgement.specs.Judgement.{first_of};
ghost use Rattle.judgement.specs.Ways.{widen, leads};
ghost use Rattle.judgement.specs.Nets.{net_in};
ghost use Rattle.judgement.specs.Merge.{but, RoundsTo};

use crate::net::Net;
use crate::side::{Ends, Side};

// One round: the set with what is one of the lightpaths, other than `skip`, away from it. What a round adds counts only in the next.
#[tactic(auto, using(crate::proofs::Trails::widen_none, crate::proofs::Trails::widen_next))]
fn widened(net: &Net, old: Side, skip: usize) -> Side
    ensures { result.mask ≡ widen (net_in net.now) (but skip) old.mask net.now.n }
{
    let mut all = old;
    for k in 0..net.n {
        let ends = net.ends(k);
        if k != skip && old.has_either(ends) {
            all = all.with_ends(ends);
        }
    }
    all
}

// The rounds: place j of `sets` is what is at most j lightpaths away, up to the place `last`, which stands beside the array: the library has no heap, and a vector
// of a fixed capacity would hand out each round as an Option, which its one reader would have to open.
#[derive(Clone, Copy)]
pub(crate) struct Rounds {
    pub sets: [u64; 65],
    pub last: usize,
}

impl Rounds {
    // What is at most j lightpaths away.
    pub(crate) fn at(&self, j: usize) -> Side
        requires { j < 65 }
        ensures { result.mask ≡ get_or self.now.sets j 0 }
    {
        Side { mask: self.sets[j] }
    }
}

// The rounds from the "to" of a lightpath by others than `skip`, until one meets its "from" or adds nothing: no later one would tell more of the way from there.
pub(crate) fn rounds_to(net: &Net, ends: Ends, skip: usize) -> Rounds
    ensures { RoundsTo (net_in net.now) (but skip) ends.to ends.from result }
{
    let mut side = Side { mask: 0 }.with(ends.to);
    let mut sets = [0u64; 65];
    sets[0] = side.mask;
    let mut last = 0;
    for j in 1..65 {
        if side.has(ends.from) {
            break;
        }
        let next = widened(net, side, skip);
        if next == side {
            break;
        }
        last = j;
        sets[j] = next.mask;
        side = next;
    }
    Rounds { sets, last }
}

// Whether a lightpath leads from x into a set: x is one of its ends, and the set has the other.
fn leads(x: u8, set: Side, ends: Ends) -> bool
    ensures { result ≡ ((eqb ends.from x && has set.mask ends.to) || (eqb ends.to x && has set.mask ends.from)) }
{
    (ends.from == x && set.has(ends.to)) || (ends.to == x && set.has(ends.from))
}

// The lowest of the lightpaths, other than `skip`, that leads from x into a set.
pub(crate) fn leading(net: &Net, x: u8, set: Side, skip: usize) -> Option<usize>
    ensures { result ≡ first_of (leads (net_in net.now) (but skip) x set.mask) Some None net.now.n 0 }
{
    (0..net.n).find(|k| *k != skip && leads(x, set, net.ends(*k)))
}
