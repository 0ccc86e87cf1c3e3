// The lines of a report, each put behind the text so far.
ghost use Rattle.std.specs.Prelude.{◌≡◌, ◌++◌, true};
ghost use Rattle.book.specs.Book.{RouteBook, well_formed};
ghost use Rattle.book.specs.Memory.{book_of, fault_number};
ghost use Rattle.book.specs.Choice.{movable, sizes, digits};
ghost use Rattle.listing.specs.Text.{text_of};
ghost use Rattle.listing.specs.Inside.{Adds};
ghost use Rattle.listing.specs.Report.{end_line, bad_line, bad_text, book_line, verdict_line, score_line, site_line, finding_line, move_line, move_lines, moves_of};
ghost use Rattle.listing.specs.Commands.{choice_line, joined_line, choices_line, written_line};

use crate::commands;
use crate::text::Text;
use book::Book;
use book::choice::{Choice, Movables};
use book::refusal::Refusal;
use judgement::{Asked, Down, Judged, Verdict};
use search::Finding;

// Each line is a chain of `word` and `number`, which are what the lines share.
impl Text {
    // What the book has: nodes, spans, lightpaths, alternatives.
    pub(crate) fn book_line(self, b: Book) -> Text
        ensures { (m : RouteBook) → b ≡ book_of m → Adds self (book_line m) result }
    {
        self.word(b"BOOK")
            .number(b.nodes as u64)
            .number(b.spans as u64)
            .number(b.lightpaths as u64)
            .number(b.alternatives as u64)
            .end()
    }

    // The verdict, with its numbers.
    fn verdict_line(self, v: Verdict) -> Text
        ensures { Adds self (verdict_line v) result }
    {
        match v {
            Verdict::Over(x, l, w) => self
                .word(b"OVER")
                .number(x as u64)
                .number(l as u64)
                .number(w as u64)
                .end(),
            Verdict::Split(d) => self.word(b"SPLIT").side(d).end(),
            Verdict::Cut(x, d) => self.word(b"CUT").number(x as u64).side(d).end(),
            Verdict::Okay => self.word(b"OK").end(),
        }
    }

    // The two scores.
    fn score_line(self, f: u16, fc: u16) -> Text
        ensures { Adds self (score_line f fc) result }
    {
        self.word(b"SCORE").number(f as u64).number(fc as u64).end()
    }

    // The verdict, and the scores.
    pub(crate) fn judged_lines(self, j: Judged) -> Text
        ensures { Adds self (verdict_line j.verdict ++ score_line j.f j.fc) result }
    {
        self.verdict_line(j.verdict).score_line(j.f, j.fc)
    }

    // The node whose closing parts the others, with the side then; or that there is none.
    pub(crate) fn site_line(self, down: Option<Down>) -> Text
        ensures { Adds self (site_line down) result }
    {
        match down {
            Some(d) => self.word(b"SITE").number(d.node as u64).side(d.side).end(),
            None => self.word(b"SITE OK").end(),
        }
    }

    // What the search found.
    fn finding_line(self, f: Finding) -> Text
        ensures { Adds self (finding_line f) result }
    {
        match f {
            Finding::Found(n, total) => self
                .word(b"FOUND")
                .number(n as u64)
                .number(total as u64)
                .end(),
            Finding::None(total) => self.word(b"NONE").number(total as u64).end(),
            Finding::More(limit, total) => self
                .word(b"MORE")
                .number(limit as u64)
                .number(total as u64)
                .end(),
        }
    }

    // One lightpath that is moved, by its digit; no line where the digit is 0.
    fn move_line(self, k: u8, d: u8) -> Text
        ensures { Adds self (move_line k d) result }
    {
        if d == 0 {
            return self;
        }
        self.word(b"MOVE").number(k as u64).number(d as u64).end()
    }

    // The lightpaths that choice n moves.
    fn move_lines(self, b: Book, n: u32) -> Text
        ensures { (m : RouteBook) → b ≡ book_of m → well_formed m ≡ true → Adds self (move_lines (movable m) (digits (sizes m) n) 8) result }
    {
        let w = Movables::of(b);
        let c = Choice::of(n, w);
        let mut t = self;
        for (i, d) in c.digits.iter().enumerate() {
            t = t.move_line(w.lightpath[i], *d);
        }
        t
    }

    // What was found in the book b, and the moves where that is a choice.
    pub(crate) fn finding_lines(self, b: Book, f: Finding) -> Text
        ensures { (m : RouteBook) → b ≡ book_of m → well_formed m ≡ true → Adds self (finding_line f ++ moves_of m f) result }
    {
        let t = self.finding_line(f);
        match f {
            Finding::Found(n, _) => t.move_lines(b, n),
            _ => t,
        }
    }

    // Which choice of how many.
    pub(crate) fn choice_line(self, n: u32, total: u32) -> Text
        ensures { Adds self (choice_line n total) result }
    {
        self.word(b"CHOICE")
            .number(n as u64)
            .number(total as u64)
            .end()
    }

    // How many choices there are.
    pub(crate) fn choices_line(self, total: u32) -> Text
        ensures { Adds self (choices_line total) result }
    {
        self.word(b"CHOICES").number(total as u64).end()
    }

    // Who is joined, and whether these are all stations.
    pub(crate) fn joined_line(self, a: Asked) -> Text
        ensures { Adds self (joined_line a.side a.whole) result }
    {
        let word = if a.whole { b"JOINED" } else { b"PARTED" };
        self.word(word).side(a.side).end()
    }

    // How many bytes were written.
    pub(crate) fn written_line(self, len: usize) -> Text
        ensures { Adds self (written_line len) result }
    {
        self.word(b"WRITTEN").number(len as u64).end()
    }

    // A refusal's number and place.
    pub(crate) fn bad_line(self, number: u8, place: usize) -> Text
        ensures { Adds self (bad_line number place) result }
    {
        self.word(b"BAD")
            .number(number as u64)
            .number(place as u64)
            .end()
    }

    // The end of the listing.
    pub(crate) fn end_line(self) -> Text
        ensures { Adds self end_line result }
    {
        self.word(b"END").end()
    }

    // The listing of a refusal.
    pub(crate) fn refused(refusal: Refusal) -> Text
        ensures { result ≡ text_of (bad_text (fault_number refusal.fault) refusal.place) }
    {
        commands::refused(refusal.fault.number(), refusal.place)
    }
}
