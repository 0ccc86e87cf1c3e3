// Refusals: what is at fault, and at which byte. docs/BOOK.md, section 6, has the table of the book's faults.
ghost use Rattle.std.specs.Prelude.{◌≡◌};
ghost use Rattle.book.specs.Memory.{fault_number};

// What is at fault: each with its number in the table. The first ten are faults of a book, and the others of what is asked about it.
#[derive(Clone, Copy, Debug, PartialEq, Eq)]
pub enum Fault {
    // The book ends too soon.
    CutShort = 1,
    // The mark of a record is not the one that is due.
    WrongMark = 2,
    // The counts of HD do not fit.
    BadCounts = 3,
    // A fixed field of a record is not right.
    BadField = 4,
    // A route has a span number that is not below the count of spans.
    SpanTooHigh = 5,
    // A route has no span, or more than sixteen.
    BadLength = 6,
    // The walk of a route does not lead from its one end to the other.
    BrokenWalk = 7,
    // An alternative may not follow those before it.
    OutOfOrder = 8,
    // A byte follows EN.
    AfterEnd = 9,
    // No node is a station.
    NoStation = 10,
    // The buffer that was lent has no room for what is to be written.
    NoRoom = 11,
    // The book has no choice with the number.
    NoChoice = 12,
    // The book has no span with the number.
    NoSpan = 13,
}

impl Fault {
    // The number that the table gives it.
    pub fn number(self) -> u8
        ensures { result ≡ fault_number self }
    {
        self as u8
    }

    // A refusal for this fault, at a place.
    pub(crate) fn at(self, place: usize) -> Refusal
        ensures { result ≡ record { fault = self; place = place } }
    {
        Refusal { fault: self, place }
    }
}

// A refusal: what is at fault, and at which byte.
#[derive(Clone, Copy, Debug, PartialEq, Eq)]
pub struct Refusal {
    pub fault: Fault,
    pub place: usize,
}

impl Refusal {
    // A refusal of what is asked of a book, and not of a byte of it: the place is 0.
    pub(crate) fn of(fault: Fault) -> Refusal
        ensures { result ≡ record { fault = fault; place = 0 } }
    {
        Refusal { fault, place: 0 }
    }
}
