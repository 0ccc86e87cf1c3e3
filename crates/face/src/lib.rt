// The operations for a caller in C or Rust: numbers and slices in, and out the nine numbers of the answer, stored in a slice that the caller lends.
// docs/FACE.md says what each number is, and face.h declares the functions.
#![tactic(auto)]

mod numbers;

ghost use Rattle.std.specs.Prelude.{◌≡◌, length};
ghost use Rattle.book.specs.Format.{reading};
ghost use Rattle.book.specs.Writing.{chosen_of, writing, written_of, buffer};
ghost use Rattle.judgement.specs.Answers.{judged_of, asked_of, asked_set_of};
ghost use Rattle.judgement.specs.Contraction.{contracted_of};
ghost use Rattle.judgement.specs.Sites.{closed_of};
ghost use Rattle.search.specs.Answers.{searched_of};
ghost use Rattle.face.specs.Numbers.{roomy, stored, read_row, judged_row, contracted_row, closed_row, asked_row, searched_row, written_row};

use numbers::store;

// Reads a book.
#[tactic(auto, using(crate::proofs::Rows::row_read))]
#[unsafe(no_mangle)]
pub extern "C" fn gristvalley_read(s: &[u8], out: &mut [u64]) -> bool
    ensures { (result ≡ roomy out.old) × (out.new ≡ stored (read_row (reading s.now)) out.old) }
{
    let answer = book::read(s);
    store(out, answer)
}

// Judges choice n of a book, and scores it.
#[unsafe(no_mangle)]
pub extern "C" fn gristvalley_judge(s: &[u8], n: u32, out: &mut [u64]) -> bool
    ensures { (result ≡ roomy out.old) × (out.new ≡ stored (judged_row (judged_of (chosen_of (reading s.now) n))) out.old) }
{
    let answer = judgement::judge(s, n);
    store(out, answer)
}

// Judges choice n of a book by contraction.
#[unsafe(no_mangle)]
pub extern "C" fn gristvalley_contract(s: &[u8], n: u32, out: &mut [u64]) -> bool
    ensures { (result ≡ roomy out.old) × (out.new ≡ stored (contracted_row (contracted_of (chosen_of (reading s.now) n))) out.old) }
{
    let answer = judgement::contract(s, n);
    store(out, answer)
}

// Judges choice n of a book with its nodes closed one at a time.
#[unsafe(no_mangle)]
pub extern "C" fn gristvalley_close(s: &[u8], n: u32, out: &mut [u64]) -> bool
    ensures { (result ≡ roomy out.old) × (out.new ≡ stored (closed_row (closed_of (chosen_of (reading s.now) n))) out.old) }
{
    let answer = judgement::close(s, n);
    store(out, answer)
}

// Asks about span x in choice n of a book.
#[unsafe(no_mangle)]
pub extern "C" fn gristvalley_ask(s: &[u8], n: u32, x: u32, out: &mut [u64]) -> bool
    ensures { (result ≡ roomy out.old) × (out.new ≡ stored (asked_row (asked_of (chosen_of (reading s.now) n) x)) out.old) }
{
    let answer = judgement::ask(s, n, x);
    store(out, answer)
}

// Asks about a set of spans in choice n of a book: bit i of `low` is for span i, and bit i of `high` for span 64 + i.
#[unsafe(no_mangle)]
pub extern "C" fn gristvalley_ask_set(
    s: &[u8],
    n: u32,
    low: u64,
    high: u64,
    out: &mut [u64],
) -> bool
    ensures { (result ≡ roomy out.old) × (out.new ≡ stored (asked_row (asked_set_of (chosen_of (reading s.now) n) low high)) out.old) }
{
    let answer = judgement::ask_set(s, n, low, high);
    store(out, answer)
}

// Searches the choices of a book, as many as the limit says.
#[unsafe(no_mangle)]
pub extern "C" fn gristvalley_search(s: &[u8], limit: u32, out: &mut [u64]) -> bool
    ensures { (result ≡ roomy out.old) × (out.new ≡ stored (searched_row (searched_of (reading s.now) limit)) out.old) }
{
    let answer = search::search(s, limit);
    store(out, answer)
}

// Writes choice n of a book into `bytes`, whether or not there is room for the numbers of the answer.
#[unsafe(no_mangle)]
pub extern "C" fn gristvalley_write(s: &[u8], n: u32, bytes: &mut [u8], out: &mut [u64]) -> bool
    ensures { (result ≡ roomy out.old) × (out.new ≡ stored (written_row (written_of (writing s.now n (length bytes.old)))) out.old) × (bytes.new ≡ buffer (writing s.now n (length bytes.old)) bytes.old) }
{
    let answer = book::write::write(s, n, bytes);
    store(out, answer)
}
