// The questions about one span and about a set of spans: who is joined with it out.
ghost use Rattle.std.specs.Prelude.{◌≡◌, true, not, ◌^◌, ◌≤◌, ◌<◌, ltb, nat_eq};
ghost use Rattle.book.specs.Book.{RouteBook, well_formed};
ghost use Rattle.book.specs.Memory.{book_of};
ghost use Rattle.book.specs.Format.{good};
ghost use Rattle.judgement.specs.Answers.{asked, asked_of, asked_set_of};
ghost use Rattle.judgement.specs.Arrays.{up_in, side_by};
ghost use Rattle.judgement.specs.Inside.{clear, size};
ghost use Rattle.judgement.specs.Holding.{Held};
ghost use Rattle.judgement.specs.Withdrawn.{in_words, beyond};

use crate::judgeable::Judgeable;
use crate::side::Side;
use crate::{Asked, side};
use book::Book;
use book::refusal::{Fault, Refusal};

// The refusal of a number that no span has.
const NO_SPAN: Refusal = Refusal {
    fault: Fault::NoSpan,
    place: 0,
};

// The side with span x out.
fn side_out(b: &Judgeable, x: u8) -> Side
    requires { x < 128 }
    ensures { result.mask ≡ side_by b.now.book (up_in b.now.book x) }
{
    let net = b.net();
    if x < 64 {
        net.side_without(b.lowest(), &b.book.low, x)
    } else {
        net.side_without(b.lowest(), &b.book.high, x - 64)
    }
}

// What is told of a side: whether it holds all stations, which it does where it holds as many.
fn asked(b: &Judgeable, side: Side) -> Asked
    ensures { result ≡ asked side.mask (nat_eq (size 64 side.mask) (size 64 b.now.book.stations)) }
{
    Asked {
        side: side.mask,
        whole: side.size() == b.stations().size(),
    }
}

// The side with span x out and whether it holds all stations; refused where there is no such span.
#[tactic(auto, using(crate::proofs::Usable::held_usable))]
pub(crate) fn asked_of(b: Book, x: u32) -> Result<Asked, Refusal>
    requires { Held b }
    ensures { (m : RouteBook) → b ≡ book_of m → well_formed m ≡ true → result ≡ asked_of (good m) x }
{
    if x >= u32::from(b.spans) {
        return Err(NO_SPAN);
    }
    let b = Judgeable { book: b };
    Ok(asked(&b, side_out(&b, x as u8)))
}

// Whether a word, a set of numbers below 64, has one that is not below n.
fn past(word: u64, n: u8) -> bool
    ensures { result ≡ not (ltb word (2 ^ n)) }
{
    n < 64 && word >> n != 0
}

// A set of spans by two words: bit i of the first says whether span i is in it, and bit i of the second span 64 + i.
#[derive(Clone, Copy)]
pub(crate) struct Spans {
    pub low: u64,
    pub high: u64,
}

impl Spans {
    // Whether the set has a number that is not below n.
    fn beyond(self, n: u8) -> bool
        requires { n ≤ 128 }
        ensures { result ≡ beyond (in_words self.low self.high) n }
    {
        past(self.low, n) || past(self.high, n - n.min(64))
    }
}

// The side with a set of spans out: the lightpaths are up whose words share no bit with it.
fn side_with(b: &Judgeable, out: Spans) -> Side
    ensures { result.mask ≡ side_by b.now.book (clear b.now.book.low b.now.book.high out.low out.high) }
{
    let net = b.net();
    let up = side::up_where(
        net.n,
        |k| b.book.low[k] & out.low | b.book.high[k] & out.high == 0,
    );
    net.side_of(b.lowest(), &up)
}

// The side with a set of spans out and whether it holds all stations; refused where some number of the set is no span's.
#[tactic(auto, using(crate::proofs::Usable::held_usable))]
pub(crate) fn set_asked_of(b: Book, out: Spans) -> Result<Asked, Refusal>
    requires { Held b }
    ensures { (m : RouteBook) → b ≡ book_of m → well_formed m ≡ true → result ≡ asked_set_of (good m) out.low out.high }
{
    if out.beyond(b.spans) {
        return Err(NO_SPAN);
    }
    let b = Judgeable { book: b };
    Ok(asked(&b, side_with(&b, out)))
}
