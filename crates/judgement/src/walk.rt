// The judgement of a book with its score, by one walk over the spans: with each span out the lowest station's side is grown once, for the verdict and for F.
ghost use Rattle.std.specs.Prelude.{◌≡◌, true, None, ◌≤◌};
ghost use Rattle.book.specs.Book.{RouteBook, well_formed};
ghost use Rattle.book.specs.Memory.{book_of};
ghost use Rattle.judgement.specs.Judgement.{first_of, score_f};
ghost use Rattle.judgement.specs.Answers.{judgement_of};
ghost use Rattle.judgement.specs.Arrays.{cut_or_okay_in, over_or_in};
ghost use Rattle.judgement.specs.Inside.{EndsIn, parts_in, cut_in, apart_in, cut_or};
ghost use Rattle.judgement.specs.Holding.{Held};
ghost use Rattle.judgement.specs.declared.Verdict.TheVariants.{Okay};

use crate::judgeable::Judgeable;
use crate::kind::Parted;
use crate::load::Loaded;
use crate::{Judged, Verdict, kind, pairs};
use book::Book;

// What a walk over spans tells: the lowest whose loss parts the stations, and how many pairs F counts.
#[derive(Clone, Copy)]
struct Walked {
    pub cut: Option<Parted>,
    pub pairs: u16,
}

// Walks over `count` spans from `base` on, span base + i being bit i of a lightpath's word. It goes from the last to the first, so that of the spans whose loss
// parts the stations the lowest is told.
fn walk(b: &Judgeable, words: &[u64; 152], base: u8, count: u8) -> Walked
    requires { EndsIn b.now.book.lightpaths b.now.book.from b.now.book.to b.now.book.stations × (count ≤ 64) × (base ≤ 64) }
    ensures { (result.cut ≡ first_of (parts_in b.now.book words.now) (cut_in b.now.book words.now base) None count 0)
        × (result.pairs ≡ apart_in b.now.book.lightpaths b.now.book.from b.now.book.to words.now count) }
{
    let net = b.net();
    let stations = b.stations();
    let mut cut = None;
    let mut pairs: u16 = 0;
    for i in (0..count).rev() {
        let loss = pairs::loss_of(stations, &net, words, i);
        if loss.side != stations {
            cut = Some(Parted {
                span: base + i,
                side: loss.side.mask,
            });
        }
        pairs += loss.pairs;
    }
    Walked { cut, pairs }
}

// Walks over all spans, those below 64 by the first words and the others by the second: the lowest whose loss parts the stations, and the score F.
#[tactic(auto, using(crate::proofs::Usable::held_ends))]
fn walk_all(b: &Judgeable) -> Walked
    requires { Held b.now.book }
    ensures { (cut_or Okay result.cut ≡ cut_or_okay_in b.now.book) × ((m : RouteBook) → b.now.book ≡ book_of m → well_formed m ≡ true → result.pairs ≡ score_f m) }
{
    let few = b.book.spans.min(64);
    let low = walk(b, &b.book.low, 0, few);
    let high = walk(b, &b.book.high, 64, b.book.spans - few);
    Walked {
        cut: low.cut.or(high.cut),
        pairs: low.pairs + high.pairs,
    }
}

// OVER at the lowest span that is over its limit, or else SPLIT, or else what a walk over all spans has found.
fn verdict_walked(b: &Loaded<'_>, cut: Option<Parted>) -> Verdict
    requires { cut_or Okay cut ≡ cut_or_okay_in b.now.judgeable.now.book }
    ensures { result ≡ over_or_in b.now.judgeable.now.book }
{
    if let Some(over) = b.first_over() {
        over.into()
    } else if let Some(side) = b.judgeable.split() {
        Verdict::Split(side.mask)
    } else {
        kind::cut_or_okay(cut)
    }
}

// The verdict on a book, with both scores: the loads are counted once, and each span is walked over once.
#[tactic(auto, using(crate::proofs::Usable::held_usable))]
pub(crate) fn judged_of(b: Book) -> Judged
    requires { Held b }
    ensures { (m : RouteBook) → b ≡ book_of m → well_formed m ≡ true → result ≡ judgement_of m }
{
    let b = Judgeable { book: b };
    let loaded = Loaded::of(&b);
    let walked = walk_all(&b);
    Judged {
        verdict: verdict_walked(&loaded, walked.cut),
        f: walked.pairs,
        fc: loaded.excess(),
    }
}
