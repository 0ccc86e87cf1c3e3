// The search: the least acceptable choice of a book among those that a trial limit allows. docs/SEARCH.md says what each answer means.
#![tactic(auto)]

mod trial;

ghost use Rattle.std.specs.Prelude.{◌≡◌, true};
ghost use Rattle.book.specs.Book.{RouteBook, well_formed};
ghost use Rattle.book.specs.Format.{reading};
ghost use Rattle.book.specs.Memory.{book_of};
ghost use Rattle.search.specs.Search.{finding};
ghost use Rattle.search.specs.Answers.{searched_of};

use book::Book;
use book::choice::{Choice, Movables};
use book::refusal::Refusal;

// The least acceptable choice, with the number of choices; that there is none, with the number of choices; or that the limit ran out before either was
// known, with the limit and the number of choices.
#[derive(Clone, Copy)]
pub enum Finding {
    Found(u32, u32),
    None(u32),
    More(u32, u32),
}

// Tries the choices of the good book b in the order of their numbers, as far as the limit and their number allow, up to the first that is acceptable.
fn find(b: Book, limit: u32) -> Finding
    ensures { (m : RouteBook) → b ≡ book_of m → well_formed m ≡ true → result ≡ finding m limit }
{
    let w = Movables::of(b);
    let total = w.total();
    let end = limit.min(total);
    let mut c = Choice::of(0, w);
    for n in 0..end {
        if trial::acceptable(b, w, c) {
            return Finding::Found(n, total);
        }
        c = c.next(w);
    }
    if total <= limit {
        Finding::None(total)
    } else {
        Finding::More(limit, total)
    }
}

// Searches the choices of a book, as many as the limit says; a book that cannot be read is refused.
pub fn search(s: &[u8], limit: u32) -> Result<Finding, Refusal>
    ensures { result ≡ searched_of (reading s.now) limit }
{
    let b = book::read(s)?;
    Ok(find(b, limit))
}
