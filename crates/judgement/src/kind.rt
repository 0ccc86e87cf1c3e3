// The verdict alone on a book as it stands, and so on the book that a choice makes: for the search, and for contraction. `walk.rt` has it with the score.
ghost use Rattle.std.specs.Prelude.{◌≡◌, None, ◌≤◌, ◌<◌};
ghost use Rattle.judgement.specs.Judgement.{first_of};
ghost use Rattle.judgement.specs.Arrays.{cut_or_okay_in, split_or_in, verdict_in};
ghost use Rattle.judgement.specs.Inside.{parts_in, cut_in, cut_or};
ghost use Rattle.judgement.specs.declared.Verdict.TheVariants.{Okay};

use crate::Verdict;
use crate::judgeable::Judgeable;
use crate::load::Loaded;
use book::Book;

// A span that parts the stations, with the side then.
#[derive(Clone, Copy)]
pub(crate) struct Parted {
    pub span: u8,
    pub side: u64,
}

// The first of `count` spans from `base` on whose loss parts the stations: span base + i is bit i of a lightpath's word.
fn first_cut(b: &Judgeable, words: &[u64; 152], base: u8, count: u8) -> Option<Parted>
    requires { (count ≤ 64) × (base ≤ 64) }
    ensures { result ≡ first_of (parts_in b.now.book words.now) (cut_in b.now.book words.now base) None count 0 }
{
    let net = b.net();
    let start = b.lowest();
    (0..count).find_map(|i| {
        let side = net.side_without(start, words, i);
        (side != b.stations()).then_some(Parted {
            span: base + i,
            side: side.mask,
        })
    })
}

// CUT at the span that was found, or else OK.
pub(crate) fn cut_or_okay(found: Option<Parted>) -> Verdict
    ensures { result ≡ cut_or Okay found }
{
    match found {
        Some(Parted { span, side }) => Verdict::Cut(span, side),
        None => Verdict::Okay,
    }
}

// The lowest span whose loss parts the stations: the spans below 64 are looked at first, then the others.
fn lowest_cut(b: &Judgeable) -> Option<Parted>
    ensures { cut_or Okay result ≡ cut_or_okay_in b.now.book }
{
    let few = b.book.spans.min(64);
    first_cut(b, &b.book.low, 0, few).or_else(|| first_cut(b, &b.book.high, 64, b.book.spans - few))
}

// SPLIT where with all lightpaths up some station is not joined, or else CUT at the lowest span whose loss parts the stations, or OK.
pub(crate) fn split_or(b: &Judgeable) -> Verdict
    ensures { result ≡ split_or_in b.now.book }
{
    match b.split() {
        Some(side) => Verdict::Split(side.mask),
        None => cut_or_okay(lowest_cut(b)),
    }
}

// The verdict on a book in memory: OVER at the lowest span whose load exceeds its limit, or what `split_or` says. A struct that cannot be judged gets `Split(0)`,
// and no Option, since `verdict_in` says so (docs/JUDGEMENT.md, J28).
pub fn verdict_of(b: Book) -> Verdict
    ensures { result ≡ verdict_in b }
{
    let Some(b) = Judgeable::of(b) else {
        return Verdict::Split(0);
    };
    match Loaded::of(&b).first_over() {
        Some(over) => over.into(),
        None => split_or(&b),
    }
}
