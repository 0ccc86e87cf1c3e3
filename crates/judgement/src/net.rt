// The network of a book as the code holds it, and its sides: the ends of the lightpaths, and how many of them there are.
ghost use Rattle.std.specs.Prelude.{◌≡◌, ◌<◌, get_or};
ghost use Rattle.judgement.specs.Inside.{Fits, noted, up_of, Led, unset};
ghost use Rattle.judgement.specs.Network.{side_of};

use crate::side;
use crate::side::{Ends, Side};

// Lightpaths 0 to n - 1, with the ends of each: no more than a book can have, and each end is a node. The ends stand in two arrays, which are fields of `Book`.
#[derive(Clone, Copy)]
pub(crate) struct Net {
    pub from: [u8; 96],
    pub to: [u8; 96],
    pub n: usize,
    ghost fits: { Fits n from to },
}

// Puts both ends of a lightpath into the row of each, where it is up.
fn note(rows: &mut [u64; 64], ends: Ends, up: bool)
    ensures { rows.new ≡ noted up ends.from ends.to rows.old }
{
    if up {
        let i = ends.from as usize;
        let j = ends.to as usize;
        let first = Side { mask: rows[i] };
        rows[i] = first.with_ends(ends).mask;
        let second = Side { mask: rows[j] };
        rows[j] = second.with_ends(ends).mask;
    }
}

impl Net {
    ghost use Rattle.std.specs.Prelude.{true};
    ghost use Rattle.judgement.specs.Nets.{net_in};

    // The ends of lightpath k.
    pub(crate) fn ends(&self, k: usize) -> Ends
        requires { k < 96 }
        ensures { (result.from ≡ get_or self.now.from k 0) × (result.to ≡ get_or self.now.to k 0) }
    {
        Ends {
            from: self.from[k],
            to: self.to[k],
        }
    }

    // Where the lightpaths that are up lead: row x is the set of the ends of those that end at x.
    pub(crate) fn rows(&self, up: &[bool; 96]) -> [u64; 64]
        ensures { Led 64 result (net_in self.now) (up_of up.now) }
    {
        let mut rows = [0u64; 64];
        for k in 0..self.n {
            note(&mut rows, self.ends(k), up[k]);
        }
        rows
    }

    // The side of a node.
    pub(crate) fn side_of(&self, start: u8, up: &[bool; 96]) -> Side
        requires { start < 64 }
        ensures { result.mask ≡ side_of (net_in self.now) (up_of up.now) 64 start }
    {
        side::grow(start, &self.rows(up))
    }

    // The side of a node without a span, or with another node closed, which is the bit of the lightpaths' words.
    pub(crate) fn side_without(&self, start: u8, words: &[u64; 152], bit: u8) -> Side
        requires { (start < 64) × (bit < 64) }
        ensures { result.mask ≡ side_of (net_in self.now) (unset words.now bit) 64 start }
    {
        self.side_of(start, &side::up_without(words, bit, self.n))
    }

    // The side of a node with all lightpaths up.
    pub(crate) fn side_whole(&self, start: u8) -> Side
        requires { start < 64 }
        ensures { result.mask ≡ side_of (net_in self.now) (λ k. true) 64 start }
    {
        self.side_of(start, &[true; 96])
    }
}
