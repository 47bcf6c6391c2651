// Makes the last call of a session file many times over, by value and each time on the same session, so that its instructions can be counted.
// Standard input has the number of times in eight bytes, and then the file; of a file without events the table is opened.
// Prints that number, the number of the last reply, and what was gathered from the sessions that were handed back.
#![tactic(auto)]

ghost use Rattle.std.specs.Prelude.{◌≡◌, Ok};
ghost use Rattle.file.specs.Reading.{read_of};

use file::{Event, Layout};
use order::Order;
use session::{Answer, Session};
use std::io;
use table::Table;

const TIMES_BYTES: usize = 8;

// The number of the last reply, and the clocks and heads of all sessions, mixed into one number.
#[derive(Clone, Copy, Default)]
struct Tally {
    number: u64,
    mixed: u64,
}

fn main(rt: HostRuntime) -> io::Result<()> {
    let mut buffer = [0u8; given::FILE_ROOM];
    let len = given::read_full(&mut rt.stdin(), &mut buffer)?;
    if TIMES_BYTES <= len {
        let times = cells::number_at(&buffer, 0, TIMES_BYTES);
        meter(&rt, times, &buffer[TIMES_BYTES..len])?;
    }
    Ok(())
}

fn meter(rt: &impl Print, times: u64, file: &[u8]) -> io::Result<()> {
    match file::read(file) {
        Ok(layout) => tell(rt, times, measured(file, layout, times)),
        Err(refusal) => {
            let line = listing::refused(refusal.number(), 0);
            rt.write_all(line.as_bytes())
        }
    }
}

fn measured(file: &[u8], layout: Layout, times: u64) -> Tally
    requires { read_of file.now ≡ Ok layout }
{
    let table = file::table_of(file);
    if layout.events == 0 {
        return openings(table, layout.order, times);
    }
    let trace = &file[layout.start..layout.end];
    let last = layout.events - 1;
    let opened = Session::open(table, layout.order);
    let prepared = run(opened.session, trace, last);
    repeated(prepared, file::event_at(trace, last), times)
}

// The session after the first events of a trace.
fn run(opened: Session, trace: &[u8], events: usize) -> Session {
    let mut session = opened;
    for i in 0..events {
        let stepped = trace::step(session, i as u64 + 1, file::event_at(trace, i));
        session = stepped.session;
    }
    session
}

// The calls of an event: each is a loop of its own, in which the call is known.
fn repeated(session: Session, event: Event, times: u64) -> Tally {
    match event {
        Event::Arrival { stream, place, tag } => {
            calls(
                session,
                times,
                |kept: &Session| kept.arrival(stream, place, tag),
            )
        }
        Event::Turn => calls(session, times, |kept: &Session| kept.turn()),
        Event::OwnTurn { stream, index } => {
            calls(
                session,
                times,
                |kept: &Session| kept.own_turn(stream, index),
            )
        }
        Event::Done { duration } => calls(session, times, |kept: &Session| kept.done(duration)),
        Event::Clock { time } => calls(session, times, |kept: &Session| kept.clock(time)),
        Event::Malformed => Tally {
            number: file::Refusal::Layout.number(),
            mixed: 0,
        },
    }
}

// Zero, which the compiler cannot know: no call, nor a part of one, may leave its loop for being the same each time.
fn zero_of(times: u64) -> u64 {
    times / 4_294_967_296
}

// An opening is no call of a session: it has a loop of its own.
fn openings(table: Table, order: Order, times: u64) -> Tally {
    let mut tally = Tally::default();
    let mut kept = table;
    let zero = zero_of(times);
    for _ in 0..times {
        kept.count ^= zero as usize;
        let opened = Session::open(kept, order);
        tally.number = match opened.admission {
            Ok(_) => 0,
            Err(refusal) => refusal.number(),
        };
        tally.mixed ^= opened.session.head;
    }
    tally
}

// Makes a call of the same session over and over.
fn calls<F: Fn(&Session) -> Answer>(session: Session, times: u64, call: F) -> Tally
    requires { F.IsAlwaysCallable call }
{
    let mut tally = Tally::default();
    let mut kept = session;
    let zero = zero_of(times);
    for _ in 0..times {
        kept.head ^= zero;
        let answer = call(&kept);
        let reply = answer.reply;
        let clock = answer.session.clock;
        tally.number = reply.number();
        tally.mixed ^= clock.micros() ^ answer.session.head;
    }
    tally
}

fn tell(rt: &impl Print, times: u64, tally: Tally) -> io::Result<()> {
    let line = listing::line(times, tally.number, 0, 0, tally.mixed, 0);
    rt.write_all(line.as_bytes())
}
