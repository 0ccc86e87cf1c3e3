// Labels: the number of the piece that each node is in. docs/CONTRACTION.md, sections 1 and 3, says what they mean.
ghost use Rattle.std.specs.Prelude.{ℕ, ◌<◌, get_or};

use crate::net::Net;
use crate::side::Side;
use std::array;

// The label of each node. Labels are numbers of nodes.
#[derive(Clone, Copy)]
pub(crate) struct Labels {
    pub of: [u8; 64],
    ghost low: { (i : ℕ) → get_or of i 0 < 64 },
}

impl Labels {
    ghost use Rattle.std.specs.Prelude.{◌≡◌, ◌&&◌};
    ghost use Rattle.std.specs.Int.Count.{count_trailing_zeros};
    ghost use Rattle.book.specs.Bits.{has};
    ghost use Rattle.judgement.specs.Pieces.{labels};
    ghost use Rattle.judgement.specs.Merge.{Table, relabelled, NetOver, in_stations_by};

    // The labels at the start: each node is a label of its own.
    pub(crate) fn singles() -> Labels
        ensures { Table 64 (λ i. i) 64 result.of }
    {
        Labels {
            of: array::from_fn(|i| i as u8),
        }
    }

    // The labels of the ends of lightpaths, in place of the ends.
    #[tactic(auto, using(crate::proofs::Elements::taken))]
    fn of_ends(&self, ends: &[u8; 96]) -> [u8; 96]
        requires { (k : ℕ) → get_or ends.now k 0 < 64 }
        ensures { Table 96 (λ k. get_or self.now.of (get_or ends.now k 0) 0) 96 result }
    {
        ends.map(|end| self.of[end as usize])
    }

    // The network over the pieces.
    pub(crate) fn over(&self, net: &Net) -> Net
        ensures { NetOver self.now.of net.now result }
    {
        Net {
            from: self.of_ends(&net.from),
            to: self.of_ends(&net.to),
            n: net.n,
        }
    }

    // The labels when the pieces of a ring are made one: the lowest label of the ring for each of them.
    #[tactic(auto, using(crate::proofs::Elements::taken))]
    pub(crate) fn joined(&self, ring: Side) -> Labels
        ensures { Table 64 (λ i. relabelled ring.mask (count_trailing_zeros 64 ring.mask) (get_or self.now.of i 0)) 64 result.of }
    {
        let lowest = ring.lowest();
        Labels {
            of: self.of.map(|q| if ring.has(q) { lowest } else { q }),
        }
    }

    // The set of the labels of the stations.
    #[tactic(auto, using(crate::proofs::LabelArrays::labels_none, crate::proofs::LabelArrays::labels_next))]
    pub(crate) fn of_stations(&self, stations: Side) -> Side
        ensures { result.mask ≡ labels (has stations.mask) (λ i. get_or self.now.of i 0) 64 }
    {
        let mut set = Side { mask: 0 };
        for (i, q) in self.of.iter().enumerate() {
            if stations.has(i as u8) {
                set = set.with(*q);
            }
        }
        set
    }

    // A side over pieces, given in stations: those whose label it holds.
    #[tactic(auto, using(crate::proofs::LabelArrays::labels_none, crate::proofs::LabelArrays::labels_next))]
    pub(crate) fn in_stations(&self, stations: Side, side: Side) -> Side
        ensures { result.mask ≡ in_stations_by stations.mask self.now.of side.mask }
    {
        let mut set = Side { mask: 0 };
        for (i, q) in self.of.iter().enumerate() {
            let i = i as u8;
            if stations.has(i) && side.has(*q) {
                set = set.with(i);
            }
        }
        set
    }
}
