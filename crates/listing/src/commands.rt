// What each command prints: a question about a book, answered in a few lines and END, or a refusal. docs/COMMANDS.md says what each is.
ghost use Rattle.std.specs.Prelude.{◌≡◌};
ghost use Rattle.book.specs.Format.{reading};
ghost use Rattle.book.specs.Writing.{chosen_of};
ghost use Rattle.judgement.specs.Answers.{asked_of};
ghost use Rattle.listing.specs.Text.{text_of};
ghost use Rattle.listing.specs.Report.{bad_text};
ghost use Rattle.listing.specs.Commands.{judge_of, open_of, search_of, read_of, write_of, is_refusal};
ghost use Rattle.listing.specs.Inside.{told};

use crate::text::Text;
use book::choice;
use book::choice::Movables;
use book::refusal::Refusal;

// The lines about a choice of a book that has it.
fn judged(s: &[u8], n: u32) -> Result<Text, Refusal>
    ensures { result ≡ told (judge_of n) (chosen_of (reading s.now) n) }
{
    let b = choice::choose(s, n)?;
    let judged = judgement::judge(s, n)?;
    let down = judgement::close(s, n)?;
    let total = Movables::of(b).total();
    Ok(
        Text::none()
            .choice_line(n, total)
            .judged_lines(judged)
            .site_line(down)
            .end_line(),
    )
}

// The verdict on choice n, its score, and what closing a node does in it.
pub fn judge(s: &[u8], n: u32) -> Text
    ensures { result ≡ text_of (judge_of n (chosen_of (reading s.now) n)) }
{
    judged(s, n).unwrap_or_else(Text::refused)
}

// Who is joined in choice n with span x out.
pub fn open(s: &[u8], n: u32, x: u32) -> Text
    ensures { result ≡ text_of (open_of (asked_of (chosen_of (reading s.now) n) x)) }
{
    match judgement::ask(s, n, x) {
        Ok(asked) => Text::none().joined_line(asked).end_line(),
        Err(refusal) => Text::refused(refusal),
    }
}

// What a search of a book that can be read finds.
fn searched(s: &[u8], limit: u32) -> Result<Text, Refusal>
    ensures { result ≡ told (search_of limit) (reading s.now) }
{
    let b = book::read(s)?;
    let finding = search::search(s, limit)?;
    Ok(Text::none().finding_lines(b, finding).end_line())
}

// What a search with a trial limit finds.
pub fn search(s: &[u8], limit: u32) -> Text
    ensures { result ≡ text_of (search_of limit (reading s.now)) }
{
    searched(s, limit).unwrap_or_else(Text::refused)
}

// What a book that can be read has.
fn counted(s: &[u8]) -> Result<Text, Refusal>
    ensures { result ≡ told read_of (reading s.now) }
{
    let b = book::read(s)?;
    let total = Movables::of(b).total();
    Ok(Text::none().book_line(b).choices_line(total).end_line())
}

// What a book has, and how many choices.
pub fn read(s: &[u8]) -> Text
    ensures { result ≡ text_of (read_of (reading s.now)) }
{
    counted(s).unwrap_or_else(Text::refused)
}

// What the writer answered: how many bytes it wrote, or a refusal's number and place. These may be any, since a `Refusal` would ask more of a caller.
pub fn written(w: Result<usize, (u8, usize)>) -> Text
    ensures { result ≡ text_of (write_of w) }
{
    match w {
        Ok(len) => Text::none().written_line(len).end_line(),
        Err((number, place)) => refused(number, place),
    }
}

// A refusal, by any number and place: these may be more than the faults that a book or a question can have.
pub fn refused(number: u8, place: usize) -> Text
    ensures { result ≡ text_of (bad_text number place) }
{
    Text::none().bad_line(number, place).end_line()
}

// Whether an answer is a refusal, which begins with the word BAD, as no other does.
pub fn is_refusal(t: Text) -> bool
    ensures { result ≡ is_refusal t }
{
    t.bytes.starts_with(b"BA")
}
