// Which structs are judged: a book's, and any other whose counts and ends are such as a book can have.
ghost use Rattle.std.specs.Prelude.{◌≡◌, false, ◌<◌, ◌≢◌, nat_lt, MatchOption};
ghost use Rattle.std.specs.List.{list_all};
ghost use Rattle.judgement.specs.Judgement.{all_up};
ghost use Rattle.judgement.specs.Arrays.{usable, lowest_in, side_by};
ghost use Rattle.judgement.specs.Holding.{Usable};

use crate::net::Net;
use crate::side::Side;
use book::Book;

// A struct each of whose arrays can be read without a further test. That it holds a well-formed book, `Held`, stays a clause: a ghost field takes a fact that has
// one proof at most, and `Held` carries the book itself, of which the contracts speak.
#[derive(Clone, Copy)]
pub(crate) struct Judgeable {
    pub book: Book,
    ghost usable: { Usable book },
}

// Whether all numbers are those of nodes.
fn all_nodes(xs: &[u8]) -> bool
    ensures { result ≡ list_all (λ x. nat_lt x 64) xs.now }
{
    xs.iter().all(|x| *x < 64)
}

// Whether the counts and ends of a struct are such as a book can have.
fn usable(b: &Book) -> bool
    ensures { result ≡ usable b.now }
{
    let stations = Side { mask: b.stations };
    b.lightpaths <= 96
        && b.spans <= 128
        && stations.lowest() < 64
        && all_nodes(&b.from)
        && all_nodes(&b.to)
}

impl Judgeable {
    // The struct, where it can be judged.
    pub(crate) fn of(b: Book) -> Option<Judgeable>
        ensures { MatchOption result (usable b ≡ false) (λ j. j.book ≡ b) }
    {
        if usable(&b) {
            Some(Judgeable { book: b })
        } else {
            None
        }
    }

    // The stations.
    pub(crate) fn stations(&self) -> Side
        ensures { result.mask ≡ self.now.book.stations }
    {
        Side {
            mask: self.book.stations,
        }
    }

    // The lowest station, at which each side starts.
    pub(crate) fn lowest(&self) -> u8
        ensures { (result ≡ lowest_in self.now.book) × (result < 64) }
    {
        self.stations().lowest()
    }

    // Its lightpaths as a network.
    #[tactic(auto, using(crate::proofs::Usable::usable_fits))]
    pub(crate) fn net(&self) -> Net
        ensures { (result.n ≡ self.now.book.lightpaths) × (result.from ≡ self.now.book.from) × (result.to ≡ self.now.book.to) }
    {
        let from = self.book.from;
        let to = self.book.to;
        Net {
            from,
            to,
            n: self.book.lightpaths as usize,
        }
    }

    // The side with all lightpaths up, where it lacks a station.
    pub(crate) fn split(&self) -> Option<Side>
        ensures { MatchOption result (side_by self.now.book all_up ≡ self.now.book.stations)
            (λ d. (d.mask ≡ side_by self.now.book all_up) × (d.mask ≢ self.now.book.stations)) }
    {
        let whole = self.net().side_whole(self.lowest());
        (whole != self.stations()).then_some(whole)
    }
}
