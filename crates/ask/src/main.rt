// The commands: `ask VERB BOOK WORD..` prints what docs/COMMANDS.md says of the book in the file BOOK. Where a file cannot be read or made, or a word is no
// number, a sentence on the error output says so and nothing is printed. `./gristvalley` starts it, and makes a status of what it tells.
#![tactic(auto)]

ghost use Rattle.std.specs.Prelude.{◌≤◌, length};

use book::write;
use console::Status;
use listing::number::NotNumber;
use listing::text::Text;
use listing::{commands, number};
use std::env::FillError;
use std::io::{Error, ErrorKind};
use std::rt::Env;

// Says what is wrong with an argument.
fn blame(rt: &HostRuntime, name: &[u8], word: &[u8], why: &[u8]) {
    console::say(rt, b"gristvalley: ");
    console::say(rt, name);
    console::say(rt, b" is '");
    console::say(rt, word);
    console::say(
        rt,
        b"' and must be a whole number from 0 to 4294967295, in digits only: ",
    );
    console::say(rt, why);
    console::say(rt, b"\n");
}

// The number that argument i is; where it is none, the error output says why.
fn number_at(rt: &HostRuntime, i: usize, name: &[u8]) -> Option<u32> {
    let mut space = [0u8; 4096];
    let word: &[u8] = match rt.arg(i, &mut space) {
        Ok(n) => &space[..n],
        Err(FillError::NotPresent) => b"",
        Err(FillError::TooLong) => {
            blame(rt, name, b"..", b"it has more than 4,096 bytes");
            return None;
        }
    };
    let why: &[u8] = match number::parse(word) {
        Ok(n) => return Some(n),
        Err(NotNumber::Empty) => b"it is empty",
        Err(NotNumber::NotDigits) => b"it has a byte that is not a digit",
        Err(NotNumber::TooGreat) => b"it is greater",
    };
    blame(rt, name, word, why);
    None
}

// The bytes of argument i, which are put into the space; none where it is missing or does not fit, since what is said of a missing name may not change.
fn word_at<'a>(rt: &HostRuntime, i: usize, space: &'a mut [u8]) -> &'a [u8]
    ensures { length result.now ≤ length space.old }
{
    let n = rt.arg(i, space).unwrap_or(0);
    &space[..n]
}

// Makes the file that argument i names, which nothing may have been called before, with the bytes in it, all of which reach the disk; or answers why not.
fn make_file(rt: &HostRuntime, i: usize, bytes: &[u8]) -> Result<(), Error> {
    let mut space = [0u8; 4096];
    let name = word_at(rt, i, &mut space);
    let mut file = console::create(rt, name)?;
    console::put(&mut file, bytes)?;
    file.sync_all()
}

// Has what was entered into the folder that argument i names reach its disk, or answers why it did not. Some file systems have nothing to do for that, and say
// that it is not for a folder.
fn sync_folder(rt: &HostRuntime, i: usize) -> Result<(), Error> {
    let mut space = [0u8; 4096];
    let name = word_at(rt, i, &mut space);
    let folder = console::open_read(rt, name)?;
    match folder.sync_all() {
        Err(why) if why.kind() == ErrorKind::InvalidInput => Ok(()),
        synced => synced,
    }
}

// Keeps a book that was chosen in the file that argument 4 names, which is told, or says why not.
fn keep(rt: &HostRuntime, bytes: &[u8]) {
    match make_file(rt, 4, bytes) {
        Ok(()) => console::tell(Status::Served as u8),
        Err(why) => console::fail(
            rt,
            b"gristvalley: the chosen book could not be written",
            why,
        ),
    }
}

// `read`.
fn read(rt: &HostRuntime, s: &[u8]) {
    console::answer(rt, commands::read(s));
}

// A verb with one number, which has the name: `judge CHOICE` and `search LIMIT`.
fn with_number<F: Fn(&[u8], u32) -> Text>(rt: &HostRuntime, s: &[u8], name: &[u8], command: F)
    requires { F.IsAlwaysCallable command }
{
    if let Some(n) = number_at(rt, 3, name) {
        console::answer(rt, command(s, n));
    }
}

// `open CHOICE SPAN`. Both words are looked at before one is missed.
fn open(rt: &HostRuntime, s: &[u8]) {
    let choice = number_at(rt, 3, b"CHOICE");
    let span = number_at(rt, 4, b"SPAN");
    if let (Some(n), Some(x)) = (choice, span) {
        console::answer(rt, commands::open(s, n, x));
    }
}

// `write CHOICE FILE`: keeps the choice in a new file, which has no name yet that a planner gave it; so nothing is printed but a refusal.
fn write_out(rt: &HostRuntime, s: &[u8]) {
    if let Some(n) = number_at(rt, 3, b"CHOICE") {
        let mut out = [0u8; 4096];
        match write::write(s, n, &mut out) {
            Ok(len) => keep(rt, &out[..len]),
            Err(r) => console::answer(rt, commands::written(Err((r.fault.number(), r.place)))),
        }
    }
}

// `named FOLDER`, of a book that was written and has its name: prints that it is written, once the folder has it on its disk. The book was read by its name, and
// choice 0 of what was read is the book itself.
fn named(rt: &HostRuntime, s: &[u8]) {
    if let Err(why) = sync_folder(rt, 3) {
        console::fail(
            rt,
            b"gristvalley: the folder of OUT could not be synced",
            why,
        );
        return;
    }
    let mut out = [0u8; 4096];
    match write::write(s, 0, &mut out) {
        Ok(len) => console::answer(rt, commands::written(Ok(len))),
        Err(_) => console::say(rt, b"gristvalley: OUT does not hold what was written\n"),
    }
}

// Answers the command that the verb names.
fn answer(rt: &HostRuntime, verb: &[u8], s: &[u8]) {
    match verb {
        b"read" => read(rt, s),
        b"judge" => with_number(rt, s, b"CHOICE", commands::judge),
        b"open" => open(rt, s),
        b"search" => with_number(rt, s, b"LIMIT", commands::search),
        b"write" => write_out(rt, s),
        b"named" => named(rt, s),
        _ => console::say(rt, b"gristvalley: the first argument is no command\n"),
    }
}

fn main(rt: HostRuntime) {
    let mut word = [0u8; 4096];
    let verb = word_at(&rt, 1, &mut word);
    let mut space = [0u8; 4096];
    if let Ok(n) = console::read_file(&rt, 2, b"BOOK", &mut space) {
        answer(&rt, verb, &space[..n]);
    }
}
