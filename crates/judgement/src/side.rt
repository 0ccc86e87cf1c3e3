// Sides: sets of nodes as one word, bit i for node i, and the side of a node, grown from the nodes still to be looked at, each taken once.
ghost use Rattle.std.specs.Prelude.{◌≡◌, Bool, ◌||◌, ℕ, ◌≤◌, ◌<◌, eqb};
ghost use Rattle.std.specs.Int.Bits.{bit_or, bit_xor};
ghost use Rattle.std.specs.Int.Count.{count_trailing_zeros};
ghost use Rattle.book.specs.Bits.{has, put};
ghost use Rattle.judgement.specs.Network.{Network, side_of};
ghost use Rattle.judgement.specs.Inside.{Led, LedBySome, growth, next_in, took_in, up_table, unset, size};

// The ends of a lightpath, each of which is a node: `Net::ends` reads them.
#[derive(Clone, Copy)]
pub(crate) struct Ends {
    pub from: u8,
    pub to: u8,
    ghost low: { (from < 64) × (to < 64) },
}

// A set of numbers below 64, those of the nodes; the same word serves for the spans of a route, and for the nodes that it meets. Crate `book` has a set of its own:
// no public function of it has a `requires` (docs/PROMISES.md), and `has` and `with` ask for a number below 64. That stays a clause, since nodes stand as bytes in
// the arrays of `Book`: a type for the number of a node would be made anew wherever one is read, and taken apart wherever one is stored.
#[derive(Clone, Copy, PartialEq, Eq)]
pub(crate) struct Side {
    pub mask: u64,
}

impl Side {
    // Whether node i is in the set.
    pub(crate) fn has(self, i: u8) -> bool
        requires { i < 64 }
        ensures { result ≡ has self.mask i }
    {
        (self.mask >> i) & 1 == 1
    }

    // Whether one end of a lightpath is in the set.
    pub(crate) fn has_either(self, ends: Ends) -> bool
        ensures { result ≡ (has self.mask ends.from || has self.mask ends.to) }
    {
        self.has(ends.from) || self.has(ends.to)
    }

    // The set with node i put in.
    pub(crate) fn with(self, i: u8) -> Side
        requires { i < 64 }
        ensures { result.mask ≡ put self.mask i }
    {
        Side {
            mask: self.mask | 1u64 << i,
        }
    }

    // The set with both ends of a lightpath put in.
    pub(crate) fn with_ends(self, ends: Ends) -> Side
        ensures { result.mask ≡ put (put self.mask ends.from) ends.to }
    {
        Side {
            mask: self.mask | 1u64 << ends.from | 1u64 << ends.to,
        }
    }

    // Whether no node is in the set.
    pub(crate) fn is_empty(self) -> bool
        ensures { result ≡ eqb self.mask 0 }
    {
        self.mask == 0
    }

    // The lowest-numbered node of the set, 64 where there is none, as `trailing_zeros` has it: an Option would be opened at each call.
    pub(crate) fn lowest(self) -> u8
        ensures { result ≡ count_trailing_zeros 64 self.mask }
    {
        self.mask.trailing_zeros() as u8
    }

    // How many nodes are in the set.
    pub(crate) fn size(self) -> u32
        ensures { result ≡ size 64 self.mask }
    {
        self.mask.count_ones()
    }

    // The set with all of another put in.
    pub(crate) fn with_all(self, other: Side) -> Side
        ensures { result.mask ≡ bit_or self.mask other.mask }
    {
        Side {
            mask: self.mask | other.mask,
        }
    }

    // What the set has beyond a part of it.
    pub(crate) fn beyond(self, part: Side) -> Side
        ensures { result.mask ≡ bit_xor self.mask part.mask }
    {
        Side {
            mask: self.mask ^ part.mask,
        }
    }
}

// A side that grows, and which of its nodes have been looked at.
#[derive(Clone, Copy)]
struct Growth {
    pub side: Side,
    pub seen: Side,
}

impl Growth {
    // One node, of which nothing has been looked at.
    fn from(start: u8) -> Growth
        requires { start < 64 }
        ensures { result ≡ growth (put 0 start) 0 }
    {
        let none = Side { mask: 0 };
        Growth {
            side: none.with(start),
            seen: none,
        }
    }

    // Looks at the lowest node of the side that has not been looked at: where it leads is put in.
    fn take(self, rows: &[u64; 64]) -> Growth
        requires { next_in self < 64 }
        ensures { result ≡ took_in self rows.now }
    {
        let i = self.side.beyond(self.seen).lowest();
        let row = Side {
            mask: rows[i as usize],
        };
        Growth {
            side: self.side.with_all(row),
            seen: self.seen.with(i),
        }
    }
}

// The side of a node, given where the lightpaths that are up lead: each node of it is taken once. That they lead there in some network stays a clause: a ghost
// field takes a fact that has one proof at most, and `LedBySome` carries the network.
pub(crate) fn grow(start: u8, rows: &[u64; 64]) -> Side
    requires { (start < 64) × LedBySome 64 rows.now }
    ensures { (net : Network) → (up : ℕ → Bool) → Led 64 rows.now net up → result.mask ≡ side_of net up 64 start }
{
    let mut g = Growth::from(start);
    while g.side != g.seen {
        g = g.take(rows);
    }
    g.side
}

// Whether the side of one end of a lightpath holds the other: no more of the side is grown than tells it. The loop is that of `grow` but for this: one loop for
// both would have to say in its contract where it stopped, which is longer than a loop.
pub(crate) fn reaches(ends: Ends, rows: &[u64; 64]) -> bool
    requires { LedBySome 64 rows.now }
    ensures { (net : Network) → (up : ℕ → Bool) → Led 64 rows.now net up → result ≡ has (side_of net up 64 ends.from) ends.to }
{
    let mut g = Growth::from(ends.from);
    while g.side != g.seen {
        if g.side.has(ends.to) {
            return true;
        }
        g = g.take(rows);
    }
    g.side.has(ends.to)
}

// Which of the first n lightpaths are up: those that pass a test.
pub(crate) fn up_where<F: Fn(usize) -> bool>(n: usize, test: F) -> [bool; 96]
    requires few { n ≤ 96 }
    requires callable { (k : ℕ) → k < n → F.pre test k }
    ensures { (t : ℕ → Bool) → ((k : ℕ) (b : Bool) → k < n → F.post test k b → b ≡ t k) → result ≡ up_table t n }
{
    let mut up = [false; 96];
    for k in 0..n {
        up[k] = test(k);
    }
    up
}

// Which of the first n lightpaths are up without a span, or with a node closed: those whose word, a set of spans or of nodes, has not its bit.
pub(crate) fn up_without(words: &[u64; 152], bit: u8, n: usize) -> [bool; 96]
    requires { (bit < 64) × (n ≤ 96) }
    ensures { result ≡ up_table (unset words.now bit) n }
{
    up_where(n, |k| !Side { mask: words[k] }.has(bit))
}
