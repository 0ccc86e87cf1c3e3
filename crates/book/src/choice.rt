// Choices: which lightpaths of a book can be moved, the digits of a choice and its number, the book that a choice makes, and reading it.
// No public function asks anything of its caller: a struct that no book has gets an answer too, which docs/BOOK.md, section 10, states.
ghost use Rattle.std.specs.Prelude.{◌≡◌, true, suc, ◌+◌, ◌≤◌, min, ltb};
ghost use Rattle.book.specs.Book.{RouteBook, most_for_one, well_formed};
ghost use Rattle.book.specs.Format.{good, reading};
ghost use Rattle.book.specs.Memory.{book_of, shown};
ghost use Rattle.book.specs.Choice.{product, number, stepped};
ghost use Rattle.book.specs.Moving.{with_one, movables_in, sizes_in, choice_in, row_of, chosen_in};
ghost use Rattle.book.specs.Writing.{chosen_of};

use crate::refusal::{Fault, Refusal};
use crate::{Book, copy};

// As many lightpaths of a book can be moved.
const MOST_MOVABLE: usize = 8;

// As many alternatives of one lightpath count; more count as so many.
const MOST_FOR_ONE: u8 = 7;

// A book has room for so many lightpaths, for so many routes, and for so many spans in each.
const MOST_LIGHTPATHS: usize = 96;

const MOST_ROUTES: usize = 152;

pub(crate) const LONGEST_ROUTE: usize = 16;

// The movable lightpaths of a book in rising order, and how many alternatives each has; noughts beyond the count.
// It has no ghost field: its fields are public, and docs/BOOK.md, section 10, says what comes of a struct that no book has.
#[derive(Clone, Copy)]
pub struct Movables {
    pub count: u8,
    pub lightpath: [u8; MOST_MOVABLE],
    pub more: [u8; MOST_MOVABLE],
}

// A digit for each movable lightpath, the lowest-numbered first; noughts beyond them.
#[derive(Clone, Copy)]
pub struct Choice {
    pub digits: [u8; MOST_MOVABLE],
}

// How many values the digit of a lightpath with so many alternatives has.
fn size(more: u8) -> u32
    ensures { result ≡ suc (min more most_for_one) }
{
    more.min(MOST_FOR_ONE) as u32 + 1
}

// The row of a lightpath's route by its digit; its alternatives are the rows from `first` on.
fn row_of(k: usize, first: usize, d: usize) -> usize
    requires { first + d ≤ 4096 }
    ensures { result ≡ row_of k first d }
{
    let row = if d == 0 { k } else { first + d - 1 };
    row.min(MOST_ROUTES - 1)
}

impl Movables {
    // Adds one alternative, of lightpath k: it belongs to the lightpath found last, or is the first of a new one.
    #[tactic(auto, unfolding(crate::specs::Moving::with_one))]
    fn add(&mut self, k: u8)
        requires { self.old.count ≤ 8 }
        ensures { self.new ≡ with_one self.old k }
    {
        let n = self.count as usize;
        if n > 0 && self.lightpath[n - 1] == k {
            self.more[n - 1] = self.more[n - 1].saturating_add(1).min(MOST_FOR_ONE);
        } else if n < MOST_MOVABLE {
            self.lightpath[n] = k;
            self.more[n] = 1;
            self.count += 1;
        }
    }

    // The movable lightpaths of a book.
    pub fn of(b: Book) -> Movables
        ensures { result ≡ movables_in b }
    {
        let mut found = Movables {
            count: 0,
            lightpath: [0; MOST_MOVABLE],
            more: [0; MOST_MOVABLE],
        };
        for k in b.owner.iter().take(b.alternatives as usize) {
            found.add(*k);
        }
        found
    }

    // The number of choices: the product of the sizes.
    pub fn total(self) -> u32
        ensures { result ≡ product (sizes_in self) }
    {
        self.more.iter().map(|more| size(*more)).product()
    }
}

impl Choice {
    // The choice with number n.
    pub fn of(n: u32, w: Movables) -> Choice
        ensures { result ≡ choice_in w n }
    {
        let mut digits = [0; MOST_MOVABLE];
        let mut rest = n;
        for (i, more) in w.more.iter().enumerate() {
            let z = size(*more);
            digits[i] = (rest % z) as u8;
            rest /= z;
        }
        Choice { digits }
    }

    // The number of the choice: each digit times the product of the sizes before it.
    pub fn number(self, w: Movables) -> u32
        ensures { result ≡ number (sizes_in w) self.digits }
    {
        let mut n: u32 = 0;
        let mut weight: u32 = 1;
        for (digit, more) in self.digits.iter().zip(&w.more) {
            n += *digit as u32 * weight;
            weight *= size(*more);
        }
        n
    }

    // The next choice: the first digit that can goes up by one, and those before it go back to 0.
    pub fn next(self, w: Movables) -> Choice
        ensures { result ≡ record { digits = stepped (sizes_in w) self.digits } }
    {
        let mut c = self;
        for (i, more) in w.more.iter().enumerate() {
            let up = c.digits[i] as u32 + 1;
            if up < size(*more) {
                c.digits[i] = up as u8;
                return c;
            }
            c.digits[i] = 0;
        }
        c
    }

    // Whether the choice comes before another, by their numbers.
    pub fn before(self, other: Choice, w: Movables) -> bool
        ensures { result ≡ ltb (number (sizes_in w) self.digits) (number (sizes_in w) other.digits) }
    {
        self.number(w) < other.number(w)
    }
}

// The book with each movable lightpath on the route that its digit gives it.
pub fn chosen(b: Book, w: Movables, c: Choice) -> Book
    ensures { result ≡ chosen_in b w c }
{
    let mut new = b;
    let mut first = b.lightpaths as usize;
    let movable = w.lightpath.iter().zip(&w.more).zip(&c.digits);
    for ((k, more), digit) in movable.take(w.count as usize) {
        let to = (*k as usize).min(MOST_LIGHTPATHS - 1);
        let from = row_of(to, first, *digit as usize);
        let start = LONGEST_ROUTE * from;
        let row = &b.route[start..start + LONGEST_ROUTE];
        copy::put(&mut new.route, LONGEST_ROUTE * to, row);
        new.len[to] = b.len[from];
        new.low[to] = b.low[from];
        new.high[to] = b.high[from];
        first += *more as usize;
    }
    new
}

// The book that choice n makes of a good book; or that there is no such choice.
pub(crate) fn chosen_of(b: Book, n: u32) -> Result<Book, Refusal>
    ensures { (m : RouteBook) → b ≡ book_of m → well_formed m ≡ true → result ≡ shown (chosen_of (good m) n) }
{
    let w = Movables::of(b);
    if w.total() <= n {
        return Err(Refusal::of(Fault::NoChoice));
    }
    Ok(chosen(b, w, Choice::of(n, w)))
}

// Reads choice n of a book: the book with each lightpath on its chosen route; or the book's own fault, or that there is no such choice.
pub fn choose(s: &[u8], n: u32) -> Result<Book, Refusal>
    ensures { result ≡ shown (chosen_of (reading s.now) n) }
{
    chosen_of(crate::read(s)?, n)
}
