// Reads session files, whose names are the arguments or the lines of standard input, and prints what is counted of each and of all.
#![tactic(auto)]

mod input;
mod one_file;
mod print;

use counts::Counts;
use input::tally_input;
use one_file::tally_file;
use print::print_totals;
use std::env::Env;
use std::fs::Files;
use std::io;

// The buffer holds more than the longest file, so that a longer one is refused without being read to its end.
fn main(rt: HostRuntime) -> io::Result<()> {
    let err = rt.stderr();
    let mut file = [0u8; given::FILE_ROOM];
    if 1 < given::word_count(&rt) {
        let totals = tally_arguments(&rt, &err, &mut file)?;
        return print_totals(&rt, &err, totals);
    }
    let Some(totals) = tally_input(&rt, &err, &mut rt.stdin(), &mut file)? else {
        return err.print("tally: cannot read standard input\n");
    };
    print_totals(&rt, &err, totals)
}

// Tallies the files that the arguments name.
fn tally_arguments<R: Env + Files + Print>(
    rt: &R,
    err: &impl Print,
    file: &mut [u8],
) -> io::Result<Counts> {
    let mut totals = Counts::none();
    for i in 1..given::word_count(rt) {
        totals = tally_argument(rt, err, totals, i, file)?;
    }
    Ok(totals)
}

// A name has 4,095 bytes at most. One that its buffer has no room for is cut, and is then still too long to be opened.
fn tally_argument<R: Env + Files + Print>(
    rt: &R,
    err: &impl Print,
    totals: Counts,
    i: usize,
    file: &mut [u8],
) -> io::Result<Counts> {
    let mut name = [0u8; given::NAME_ROOM];
    let len = given::word(rt, i, &mut name);
    tally_file(rt, err, totals, &name[..len], file)
}
