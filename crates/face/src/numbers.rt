// The nine numbers of each answer, and storing them.
ghost use Rattle.std.specs.Prelude.{◌≡◌, ℕ, List};
ghost use Rattle.face.specs.Numbers.{roomy, stored, refused_row, answered_row, book_row, verdict_row, judgement_row, contraction_row, site_row, side_row, finding_row, length_row};
ghost use Rattle.book.specs.Memory.{fault_number};

use book::Book;
use book::refusal::Refusal;
use judgement::{Asked, Contracted, Down, Judged, Verdict};
use search::Finding;

// The numbers of an answer: a kind, the number and place of a refusal, and what the answer carries. The C interface wants numbers for kinds and refusals, and a
// bool for the room (docs/FACE.md).
pub(crate) type Row = [u64; 9];

// What is told in nine numbers.
pub(crate) trait Told {
    ghost row_of: { Self → List ℕ };

    fn row(self) -> Row
        ensures { result ≡ row_of self };
}

// Stores the numbers of an answer at the front of the slice, and tells whether there was room; where there is none, nothing is stored.
pub(crate) fn store<A: Told>(out: &mut [u64], answer: A) -> bool
    ensures { (result ≡ roomy out.old) × (out.new ≡ stored (A.row_of answer) out.old) }
{
    let told = answer.row();
    if out.len() < 9 {
        return false;
    }
    out[..9].copy_from_slice(&told);
    true
}

// Each operation answers with what it tells, or with a refusal.
impl<A: Told> Told for Result<A, Refusal> {
    ghost row_of = { answered_row A.row_of };

    fn row(self) -> Row {
        match self {
            Ok(answer) => answer.row(),
            Err(refusal) => refused_row(refusal),
        }
    }
}

fn refused_row(refusal: Refusal) -> Row
    ensures { result ≡ refused_row (fault_number refusal.fault) refusal.place }
{
    [
        0,
        refusal.fault.number() as u64,
        refusal.place as u64,
        0,
        0,
        0,
        0,
        0,
        0,
    ]
}

// What the book has.
impl Told for Book {
    ghost row_of = { book_row };

    fn row(self) -> Row {
        [
            1,
            0,
            0,
            self.nodes as u64,
            self.spans as u64,
            self.lightpaths as u64,
            self.alternatives as u64,
            self.stations,
            0,
        ]
    }
}

// A verdict, with two numbers behind it.
fn verdict_row(v: Verdict, a: u64, b: u64) -> Row
    ensures { result ≡ verdict_row v a b }
{
    match v {
        Verdict::Over(x, l, w) => [1, 0, 0, x as u64, l as u64, w as u64, 0, a, b],
        Verdict::Split(d) => [2, 0, 0, 0, 0, 0, d, a, b],
        Verdict::Cut(x, d) => [3, 0, 0, x as u64, 0, 0, d, a, b],
        Verdict::Okay => [4, 0, 0, 0, 0, 0, 0, a, b],
    }
}

// The verdict with its scores.
impl Told for Judged {
    ghost row_of = { judgement_row };

    fn row(self) -> Row {
        verdict_row(self.verdict, self.f as u64, self.fc as u64)
    }
}

// The verdict of the second engine, and how many merges it made.
impl Told for Contracted {
    ghost row_of = { contraction_row };

    fn row(self) -> Row {
        verdict_row(self.verdict, self.merges as u64, 0)
    }
}

// What closing a node does.
impl Told for Option<Down> {
    ghost row_of = { site_row };

    fn row(self) -> Row {
        match self {
            Some(down) => [1, 0, 0, down.node as u64, down.side, 0, 0, 0, 0],
            None => [2, 0, 0, 0, 0, 0, 0, 0, 0],
        }
    }
}

// The side with a span or a set of spans out.
impl Told for Asked {
    ghost row_of = { side_row };

    fn row(self) -> Row {
        [1, 0, 0, self.side, self.whole as u64, 0, 0, 0, 0]
    }
}

// What was found.
impl Told for Finding {
    ghost row_of = { finding_row };

    fn row(self) -> Row {
        match self {
            Finding::Found(n, total) => [1, 0, 0, n as u64, 0, total as u64, 0, 0, 0],
            Finding::None(total) => [2, 0, 0, 0, 0, total as u64, 0, 0, 0],
            Finding::More(limit, total) => [3, 0, 0, 0, limit as u64, total as u64, 0, 0, 0],
        }
    }
}

// The length of what was written.
impl Told for usize {
    ghost row_of = { length_row };

    fn row(self) -> Row {
        [1, 0, 0, self as u64, 0, 0, 0, 0, 0]
    }
}
