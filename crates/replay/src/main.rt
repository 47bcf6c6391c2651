// Reads a session file from standard input, runs its trace, and prints a line for each event.
#![tactic(auto)]

use session::Session;
use std::io;
use trace::Refusal;

// The buffer holds more than the longest file, so that a longer one is refused without being read to its end.
// Of an input that cannot be read it says so, and prints nothing.
fn main(rt: HostRuntime) -> io::Result<()> {
    let mut buffer = [0u8; given::FILE_ROOM];
    let Ok(len) = given::read_full(&mut rt.stdin(), &mut buffer) else {
        return rt.eprint("replay: cannot read standard input\n");
    };
    replay(&rt, &buffer[..len])
}

// Prints what document 01 says of a file: its listing, or the number that refuses it.
fn replay(rt: &impl Print, file: &[u8]) -> io::Result<()> {
    let layout = match file::read(file) {
        Ok(layout) => layout,
        Err(refusal) => return print_refusal(rt, Refusal::File(refusal)),
    };
    let opened = Session::open(file::table_of(file), layout.order);
    if let Err(refusal) = opened.admission {
        return print_refusal(rt, Refusal::Table(refusal));
    }
    rt.write_all(listing::header().as_bytes())?;
    let trace = &file[layout.start..layout.end];
    run(rt, opened.session, trace, layout.events)
}

fn print_refusal(rt: &impl Print, refusal: Refusal) -> io::Result<()> {
    let line = listing::refused(refusal.number(), refusal.over());
    rt.write_all(line.as_bytes())
}

// Runs the events of a trace, and prints a line for each.
fn run(rt: &impl Print, opened: Session, trace: &[u8], events: usize) -> io::Result<()> {
    let mut session = opened;
    for i in 0..events {
        let stepped = trace::step(session, i as u64 + 1, file::event_at(trace, i));
        rt.write_all(stepped.text.as_bytes())?;
        session = stepped.session;
    }
    Ok(())
}
