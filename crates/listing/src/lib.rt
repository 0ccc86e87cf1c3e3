// What the programs print, as bytes: the report and the answers to commands, worked out from the answers of the libraries below. docs/REPORT.md and
// docs/COMMANDS.md say what each line is.
#![tactic(auto)]

pub mod commands;
mod lines;
pub mod number;
pub mod text;

ghost use Rattle.std.specs.Prelude.{◌≡◌};
ghost use Rattle.book.specs.Format.{reading};
ghost use Rattle.listing.specs.Text.{text_of};
ghost use Rattle.listing.specs.Report.{report_of};
ghost use Rattle.listing.specs.Inside.{told};

use book::refusal::Refusal;
use text::Text;

// How many choices the report has tried at most.
const TRIALS: u32 = 65_536;

// The report on a book that can be read.
fn reported(s: &[u8]) -> Result<Text, Refusal>
    ensures { result ≡ told report_of (reading s.now) }
{
    let b = book::read(s)?;
    let judged = judgement::judge(s, 0)?;
    let down = judgement::close(s, 0)?;
    let finding = search::search(s, TRIALS)?;
    Ok(
        Text::none()
            .book_line(b)
            .judged_lines(judged)
            .site_line(down)
            .finding_lines(b, finding)
            .end_line(),
    )
}

// The report on a book: what it has, the verdict on choice 0, its score and what closing a node does in it, and what the search finds within 65,536 trials;
// or its refusal.
pub fn report(s: &[u8]) -> Text
    ensures { result ≡ text_of (report_of (reading s.now)) }
{
    reported(s).unwrap_or_else(Text::refused)
}
