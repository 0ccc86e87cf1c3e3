// The judgement of a choice of routes: loads, sides, the verdict with its score, and the questions about spans. docs/JUDGEMENT.md says what each is, and
// docs/SITES.md what closing a node answers.
// The second engine judges by contraction, which docs/CONTRACTION.md tells.
#![tactic(auto)]

mod judgeable;
pub mod kind;
mod label;
mod load;
mod merge;
mod net;
mod node;
mod pairs;
mod question;
mod ring;
mod side;
mod walk;
mod ways;

ghost use Rattle.std.specs.Prelude.{◌≡◌};
ghost use Rattle.book.specs.Format.{reading};
ghost use Rattle.book.specs.Writing.{chosen_of};
ghost use Rattle.judgement.specs.Answers.{judged_of, asked_of, asked_set_of};
ghost use Rattle.judgement.specs.Contraction.{contracted_of};
ghost use Rattle.judgement.specs.Sites.{closed_of};

use book::choice;
use book::refusal::Refusal;
use question::Spans;

// The first that holds: a span over its limit, with its load and limit; a network that is split, with the side; a span whose loss parts the stations, with
// the side then; or none of these.
#[derive(Clone, Copy)]
pub enum Verdict {
    Over(u8, u16, u8),
    Split(u64),
    Cut(u8, u64),
    Okay,
}

// The answer of `judge`: the verdict and the scores F and Fc.
#[derive(Clone, Copy)]
pub struct Judged {
    pub verdict: Verdict,
    pub f: u16,
    pub fc: u16,
}

// The answer of `ask` and `ask_set`: the side with the span or the spans out, and whether it holds all stations.
#[derive(Clone, Copy)]
pub struct Asked {
    pub side: u64,
    pub whole: bool,
}

// The answer of `contract`: the verdict and how many merges were made.
#[derive(Clone, Copy)]
pub struct Contracted {
    pub verdict: Verdict,
    pub merges: u16,
}

// The answer of `close` where there is one: the lowest node whose closing parts the stations that are left, with the side of the lowest of them then.
#[derive(Clone, Copy)]
pub struct Down {
    pub node: u8,
    pub side: u64,
}

// Judges choice n of a book, and scores it.
pub fn judge(s: &[u8], n: u32) -> Result<Judged, Refusal>
    ensures { result ≡ judged_of (chosen_of (reading s.now) n) }
{
    Ok(walk::judged_of(choice::choose(s, n)?))
}

// Asks about span x in choice n of a book: who is joined with it out.
pub fn ask(s: &[u8], n: u32, x: u32) -> Result<Asked, Refusal>
    ensures { result ≡ asked_of (chosen_of (reading s.now) n) x }
{
    question::asked_of(choice::choose(s, n)?, x)
}

// Asks about a set of spans in choice n of a book: who is joined with all of them out. Bit i of `low` is span i, and bit i of `high` span 64 + i.
pub fn ask_set(s: &[u8], n: u32, low: u64, high: u64) -> Result<Asked, Refusal>
    ensures { result ≡ asked_set_of (chosen_of (reading s.now) n) low high }
{
    question::set_asked_of(choice::choose(s, n)?, Spans { low, high })
}

// Judges choice n of a book by contraction, the second engine: the verdict is that of `judge`, and the number of merges comes with it.
pub fn contract(s: &[u8], n: u32) -> Result<Contracted, Refusal>
    ensures { result ≡ contracted_of (chosen_of (reading s.now) n) }
{
    Ok(merge::contracted_of(choice::choose(s, n)?))
}

// Judges choice n of a book with its nodes closed one at a time, each with every lightpath that meets it: the lowest whose closing parts the other stations.
pub fn close(s: &[u8], n: u32) -> Result<Option<Down>, Refusal>
    ensures { result ≡ closed_of (chosen_of (reading s.now) n) }
{
    Ok(node::closed_of(choice::choose(s, n)?))
}
