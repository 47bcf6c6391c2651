// Reads a session file, which its argument names, and a listing from standard input, and prints `accepted`, or which line does not follow and below it each that could have stood there.
#![tactic(auto)]

mod input;
mod print;

use input::follow_input;
use logs::Follower;
use print::print_report;
use std::fs::Files;
use std::io;

// The buffer holds more than the longest file, so that a longer one is refused without being read to its end.
fn main(rt: HostRuntime) -> io::Result<()> {
    let err = rt.stderr();
    if given::word_count(&rt) != 2 {
        return err.print(
            "follow: name one session file; the listing is read from standard input\n",
        );
    }
    let mut name = [0u8; given::NAME_ROOM];
    let len = given::word(&rt, 1, &mut name);
    follow(&rt, &err, &mut rt.stdin(), &name[..len])
}

// A name has 4,095 bytes at most. One that its buffer has no room for is cut, and is then still too long to be opened.
fn follow<R: Files + Print>(
    rt: &R,
    err: &impl Print,
    from: &mut impl io::Read,
    name: &[u8],
) -> io::Result<()> {
    let mut file = [0u8; given::FILE_ROOM];
    let Ok(len) = given::read_file(rt, name, &mut file) else {
        err.print("follow: cannot read ")?;
        err.write_all(name)?;
        return err.print("\n");
    };
    follow_listing(rt, err, from, &file[..len])
}

// Follows the listing of a file, and prints what is said of it. The buffer has room for many lines; one that is longer is none of ours.
fn follow_listing(
    rt: &impl Print,
    err: &impl Print,
    from: &mut impl io::Read,
    file: &[u8],
) -> io::Result<()> {
    let mut buffer = [0u8; given::FILE_ROOM];
    let Ok(listing) = follow_input(from, Follower::begin(file), file, &mut buffer) else {
        return err.print("follow: cannot read standard input\n");
    };
    let held = listing.held;
    print_report(rt, listing.follower, file, &buffer[..held])
}
