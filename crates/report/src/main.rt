// The report program: reads the book that its argument names, or else standard input, keeps 4,096 bytes of it, and prints the report on it.
#![tactic(auto)]

ghost use Rattle.std.specs.Prelude.{MatchResult};
ghost use Rattle.io.specs.Counts.{IsPrefixLen};

use console::Unread;
use std::env::FillError;
use std::rt::Env;

// Whether the program was given an argument, of whatever length.
fn is_named(rt: &HostRuntime) -> bool {
    let mut space = [0u8; 1];
    !matches!(rt.arg(1, &mut space), Err(FillError::NotPresent))
}

// Reads the book.
fn take(rt: &HostRuntime, space: &mut [u8]) -> Result<usize, Unread>
    ensures { MatchResult result (λ n. IsPrefixLen n space.new) (λ u. IsPrefixLen u.len space.new) }
{
    if is_named(rt) {
        console::read_file(rt, 1, b"BOOK", space)
    } else {
        console::read_input(rt, space)
    }
}

fn main(rt: HostRuntime) {
    let mut space = [0u8; 4096];
    if let Ok(n) = take(&rt, &mut space) {
        let t = listing::report(&space[..n]);
        console::answer(&rt, t);
    }
}
