// The ring of a lightpath: itself and the first way by others between its ends, with the pieces that it touches and the spans that it rides.
// docs/CONTRACTION.md, section 3, says which rings may be merged, and which is merged first.
ghost use Rattle.std.specs.Prelude.{◌≡◌, true, cond, ◌&&◌, ◌<◌, eqb, get_or, None};
ghost use Rattle.book.specs.Bits.{has};
ghost use Rattle.judgement.specs.Judgement.{first_of};
ghost use Rattle.judgement.specs.Ways.{near};
ghost use Rattle.judgement.specs.Nets.{net_in};
ghost use Rattle.judgement.specs.Merge.{but, RoundsTo, seen_by, with_path, nearer_by, trail_of, merges_by, ring_at};

use crate::net::Net;
use crate::side::Side;
use crate::ways;
use crate::ways::{Rounds, rounds_to};

// The spans of the lightpaths' routes by two words each: bit i of the first says whether span i is ridden, and bit i of the second span 64 + i. They are fields of
// `Book`.
#[derive(Clone, Copy)]
pub(crate) struct Words<'a> {
    pub low: &'a [u64; 152],
    pub high: &'a [u64; 152],
}

// The spans of one word that some lightpath of a way rides, and those that more than one rides.
#[derive(Clone, Copy)]
pub(crate) struct Carried {
    pub once: u64,
    pub twice: u64,
}

impl Carried {
    // With one lightpath more, by its word.
    fn with(self, word: u64) -> Carried
        ensures { result ≡ seen_by self word }
    {
        Carried {
            once: self.once | word,
            twice: self.twice | (self.once & word),
        }
    }
}

// What a way gathers: the piece that it has come to, the pieces that its lightpaths end at, and the spans that these ride, by both words.
#[derive(Clone, Copy)]
pub(crate) struct Trail {
    pub at: u8,
    pub touched: Side,
    pub low: Carried,
    pub high: Carried,
}

impl Trail {
    // With lightpath k more. The choice of the other end is that of `node::other_end`, over a lightpath in place of a span.
    fn by(self, net: &Net, words: &Words<'_>, k: usize) -> Trail
        requires { k < 96 }
        ensures { result ≡ with_path (net_in net.now) words.now.low.now words.now.high.now self k }
    {
        let ends = net.ends(k);
        Trail {
            at: if ends.from == self.at {
                ends.to
            } else {
                ends.from
            },
            touched: self.touched.with_ends(ends),
            low: self.low.with(words.low[k]),
            high: self.high.with(words.high[k]),
        }
    }

    // One step nearer: none where the way is in the set already, else by the lowest lightpath that leads into it.
    fn nearer(self, net: &Net, words: &Words<'_>, set: Side, skip: usize) -> Trail
        requires { self.at < 64 }
        ensures { result ≡ nearer_by (net_in net.now) (but skip) words.now.low.now words.now.high.now set.mask self }
    {
        if set.has(self.at) {
            return self;
        }
        match ways::leading(net, self.at, set, skip) {
            Some(k) => self.by(net, words, k),
            None => self,
        }
    }

    // Whether no span carries two of the lightpaths.
    fn is_sparing(self) -> bool
        ensures { result ≡ (eqb self.low.twice 0 && eqb self.high.twice 0) }
    {
        self.low.twice == 0 && self.high.twice == 0
    }
}

// What the ring of lightpath k gathers, given the rounds from its "to" that met its "from": k itself, and then the way, from round to round.
fn ring_trail(net: &Net, words: &Words<'_>, r: &Rounds, k: usize) -> Trail
    requires { (k < net.now.n) × (get_or net.now.from k 0 ≡ get_or net.now.to k 0 → ⊥)
        × RoundsTo (net_in net.now) (but k) (get_or net.now.to k 0) (get_or net.now.from k 0) r.now
        × (has (near (net_in net.now) (but k) (get_or net.now.to k 0) r.now.last) (get_or net.now.from k 0) ≡ true) }
    ensures { result ≡ trail_of (net_in net.now) words.now.low.now words.now.high.now k }
{
    let start = Trail {
        at: net.to[k],
        touched: Side { mask: 0 },
        low: Carried { once: 0, twice: 0 },
        high: Carried { once: 0, twice: 0 },
    };
    let mut t = start.by(net, words, k);
    for left in (0..r.last).rev() {
        t = t.nearer(net, words, r.at(left), k);
    }
    t
}

// The pieces that the ring of lightpath k touches, where k joins two pieces, other lightpaths run between them, and no span carries two of the ring.
fn ring_of(net: &Net, words: &Words<'_>, k: usize) -> Option<Side>
    requires { k < net.now.n }
    ensures { result ≡ cond (merges_by (net_in net.now) words.now.low.now words.now.high.now k)
        (ring_at (net_in net.now) words.now.low.now words.now.high.now k) None }
{
    let ends = net.ends(k);
    if ends.from == ends.to {
        return None;
    }
    let r = rounds_to(net, ends, k);
    if !r.at(r.last).has(ends.from) {
        return None;
    }
    let t = ring_trail(net, words, &r, k);
    t.is_sparing().then_some(t.touched)
}

// The ring of the lowest lightpath that has one which may be merged.
pub(crate) fn first_ring(net: &Net, words: &Words<'_>) -> Option<Side>
    ensures { result ≡ first_of (merges_by (net_in net.now) words.now.low.now words.now.high.now)
        (ring_at (net_in net.now) words.now.low.now words.now.high.now) None net.now.n 0 }
{
    (0..net.n).find_map(|k| ring_of(net, words, k))
}
