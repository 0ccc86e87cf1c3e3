// What the program writes: words, numbers, the counts of a book, and refusals.
use book::Book;
use book::refusal::Refusal;

// The descriptor of standard output.
pub(crate) const STDOUT_FILENO: i32 = 1;

// Writes bytes to standard output, by the kit's `io`: nothing is done where a write fails.
pub(crate) fn word(b: &[u8]) {
    io::write_all(STDOUT_FILENO, b);
}

// Writes a blank and a number in decimal.
pub(crate) fn number(n: impl Into<u64>) {
    word(b" ");
    io::print_decimal(STDOUT_FILENO, n.into());
}

// Writes how many nodes, spans, lightpaths and alternatives a book has.
pub(crate) fn print_counts(b: &Book) {
    for n in [b.nodes, b.spans, b.lightpaths, b.alternatives] {
        number(n);
    }
}

// Writes `BAD` with the number and the place of a refusal.
pub(crate) fn print_refusal(r: Refusal) {
    word(b"BAD");
    number(r.fault.number());
    number(r.place as u64);
}
