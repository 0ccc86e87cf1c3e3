// One trial of the search: whether a choice is acceptable.
ghost use Rattle.std.specs.Prelude.{◌≡◌};
ghost use Rattle.search.specs.Inside.{acceptable_in};

use book::choice::{Choice, Movables};
use book::{Book, choice};
use judgement::{Verdict, kind};

// Whether the verdict on the book that the choice makes is OK.
pub(crate) fn acceptable(b: Book, w: Movables, c: Choice) -> bool
    ensures { result ≡ acceptable_in b w c }
{
    let chosen = choice::chosen(b, w, c);
    let v = kind::verdict_of(chosen);
    matches!(v, Verdict::Okay)
}
