// The line of a search: what `search` answers with the limit that the first four bytes are, the highest first, of the book that the others are: `FOUND choice T`,
// `NONE T`, `MORE limit T` or `BAD number place`.
use crate::say::{number, print_refusal, word};
use search::Finding;

// Prints what was found.
fn print_finding(f: Finding) {
    match f {
        Finding::Found(n, total) => {
            word(b"FOUND");
            number(n);
            number(total);
        }
        Finding::None(total) => {
            word(b"NONE");
            number(total);
        }
        Finding::More(limit, total) => {
            word(b"MORE");
            number(limit);
            number(total);
        }
    }
}

// Prints the line, or `?` where there is no limit.
pub(crate) fn print_search(s: &[u8]) {
    let [a, b, c, d, book @ ..] = s else {
        word(b"?\n");
        return;
    };
    let limit = u32::from_be_bytes([*a, *b, *c, *d]);
    match search::search(book, limit) {
        Ok(f) => print_finding(f),
        Err(r) => print_refusal(r),
    }
    word(b"\n");
}
