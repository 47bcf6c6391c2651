// Salvages a broken session file: its arguments name the old file and the new one, which it makes, and it prints what is changed. Of a file that it cannot salvage it prints by which number it is refused, and makes none.
#![tactic(auto)]

mod changes;
mod failure;
mod pieces;

ghost use Rattle.std.specs.Prelude.{◌≤◌};
ghost use Rattle.repair.specs.Pieces.{table_end_max};

use changes::print_changes;
use failure::Failure;
use file::{Event, Form};
use order::Order;
use pieces::{check_end, gather, read_piece};
use repair::Taken;
use std::env::Env;
use std::fs::{Files, OpenFile};
use std::io;
use std::io::Write;

fn main(rt: HostRuntime) -> io::Result<()> {
    let err = rt.stderr();
    if given::word_count(&rt) != 3 {
        return err.print("salvage: name the old file and the new one\n");
    }
    let mut name = [0u8; given::NAME_ROOM];
    let len = given::word(&rt, 1, &mut name);
    salvage(&rt, &err, &name[..len])
}

// A name has 4,095 bytes at most. One that its buffer has no room for is cut, and is then still too long to be opened.
fn salvage<R: Env + Files + Print + Alloc>(rt: &R, err: &impl Print, old: &[u8]) -> io::Result<()> {
    let mut name = [0u8; given::NAME_ROOM];
    let len = given::word(rt, 2, &mut name);
    let new = &name[..len];
    match salvage_as(rt, old, new) {
        Ok(()) => Ok(()),
        Err(failure) => failure.say(rt, err, old, new),
    }
}

// Salvages the old file as the new one. The first bytes tell where the trace starts.
#[tactic(auto, using(repair::proofs::Head::trace_starts_early))]
fn salvage_as<R: Files + Print>(rt: &R, old: &[u8], new: &[u8]) -> Result<(), Failure> {
    let mut file = given::open(rt, old).map_err(|_| Failure::Unread)?;
    let mut head = [0u8; given::NAME_ROOM];
    let len = read_piece(&mut file, &mut head)?;
    if len < head.len() {
        check_end(&mut file)?;
    }
    let taken = repair::take(&head[..len])?;
    salvage_taken(rt, &mut file, new, &head[..len], taken)
}

// Goes over the trace twice: what is kept of it is written, and then what is not is printed.
fn salvage_taken<R: Files + Print>(
    rt: &R,
    file: &mut R::File,
    new: &[u8],
    head: &[u8],
    taken: Taken,
) -> Result<(), Failure>
    requires { taken.start ≤ table_end_max }
{
    let mut trace = [0u8; given::FILE_ROOM];
    let kept = gather(file, taken.start, &mut trace)?;
    make(rt, new, head, &trace[..Event::SIZE * kept])?;
    let printed = print_changes(rt, file, head, taken, kept);
    if let Err(Failure::Unread) = printed {
        let _ = given::remove(rt, new);
    }
    printed
}

// Makes the new file. The buffer holds more than the longest file.
#[tactic(auto, using(file::proofs::Round::written_is_within))]
fn make<R: Files>(rt: &R, new: &[u8], head: &[u8], trace: &[u8]) -> Result<(), Failure> {
    let mut file = [0u8; given::FILE_ROOM];
    let table = file::table_of(head);
    let len = file::write(table, Form::Two, Order::Nearest, trace, &mut file)?;
    put(rt, new, &file[..len])
}

// Puts bytes into a file that was not there, or leaves none.
fn put<R: Files>(rt: &R, new: &[u8], bytes: &[u8]) -> Result<(), Failure> {
    let mut file = given::create(rt, new).map_err(Failure::Unmade)?;
    if file.write_all(bytes).is_ok() && file.sync_all().is_ok() {
        return Ok(());
    }
    let _ = given::remove(rt, new);
    Err(Failure::Unwritten)
}
