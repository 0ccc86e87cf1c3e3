// Contraction: the pieces, merged ring after ring until no ring is left to merge, and the judgement over them. docs/CONTRACTION.md says what each is.
ghost use Rattle.std.specs.Prelude.{◌≡◌, true};
ghost use Rattle.book.specs.Book.{RouteBook, well_formed};
ghost use Rattle.book.specs.Memory.{book_of};
ghost use Rattle.judgement.specs.Pieces.{split_over};
ghost use Rattle.judgement.specs.Contraction.{pieces, contraction_of};
ghost use Rattle.judgement.specs.Holding.{Held};
ghost use Rattle.judgement.specs.Merge.{Labelled, PiecesOf, OverPieces, given_in};

use crate::judgeable::Judgeable;
use crate::label::Labels;
use crate::load::Loaded;
use crate::net::Net;
use crate::ring::Words;
use crate::side::Side;
use crate::{Contracted, Verdict, kind, ring};
use book::Book;

// The pieces: the label of each node, and how many rings were merged to make them.
#[derive(Clone, Copy)]
pub(crate) struct Pieces {
    pub labels: Labels,
    pub merges: u16,
}

// The pieces of a book: after each merge the lightpaths are taken from the lowest again, and the last pass merges nothing.
fn pieces_of(j: &Judgeable) -> Pieces
    requires { Held j.now.book }
    ensures { (m : RouteBook) → j.now.book ≡ book_of m → well_formed m ≡ true → PiecesOf m result }
{
    let net = j.net();
    let words = Words {
        low: &j.book.low,
        high: &j.book.high,
    };
    let mut labels = Labels::singles();
    let mut merges: u16 = 0;
    while let Some(ring) = ring::first_ring(&labels.over(&net), &words) {
        labels = labels.joined(ring);
        merges += 1;
    }
    Pieces { labels, merges }
}

// The struct of the book over its pieces: the labels of the ends in place of the ends, and those of the stations in place of the stations.
fn over_pieces(j: &Judgeable, labels: &Labels) -> Book
    ensures { OverPieces j.now.book labels.now.of result }
{
    let Net { from, to, .. } = labels.over(&j.net());
    let all = labels.of_stations(j.stations());
    Book {
        from,
        to,
        stations: all.mask,
        ..j.book
    }
}

// A verdict over pieces, with its side given in stations.
fn given_in(v: Verdict, stations: Side, labels: &Labels) -> Verdict
    ensures { result ≡ given_in stations.mask labels.now.of v }
{
    match v {
        Verdict::Split(d) => Verdict::Split(labels.in_stations(stations, Side { mask: d }).mask),
        Verdict::Cut(x, d) => Verdict::Cut(x, labels.in_stations(stations, Side { mask: d }).mask),
        Verdict::Over(..) | Verdict::Okay => v,
    }
}

// What is left after the merges, judged over the pieces: SPLIT, CUT or OK.
fn judged_over(j: &Judgeable, labels: &Labels) -> Verdict
    requires { Held j.now.book × ((m : RouteBook) → j.now.book ≡ book_of m → well_formed m ≡ true → Labelled m (pieces m) labels.now.of) }
    ensures { (m : RouteBook) → j.now.book ≡ book_of m → well_formed m ≡ true → result ≡ split_over m (pieces m) }
{
    let book = over_pieces(j, labels);
    given_in(kind::split_or(&Judgeable { book }), j.stations(), labels)
}

// The answer of the second engine on a book: a span that is over its limit, with no merge made, or what is left after the merges.
#[tactic(auto, using(crate::proofs::Usable::held_usable))]
pub(crate) fn contracted_of(b: Book) -> Contracted
    requires { Held b }
    ensures { (m : RouteBook) → b ≡ book_of m → well_formed m ≡ true → result ≡ contraction_of m }
{
    let j = Judgeable { book: b };
    match Loaded::of(&j).first_over() {
        Some(over) => Contracted {
            verdict: over.into(),
            merges: 0,
        },
        None => {
            let Pieces { labels, merges } = pieces_of(&j);
            Contracted {
                verdict: judged_over(&j, &labels),
                merges,
            }
        }
    }
}
