// A trace run through a session: what each call and its answer add to the tallies.
ghost use Rattle.std.specs.Prelude.{◌≡◌, [], ◌<◌};
ghost use Rattle.table.specs.Fold.{if};
ghost use Rattle.table.specs.Ranges.{streams_max};
ghost use Rattle.session.specs.History.{duration_of, history_from};
ghost use Rattle.counts.specs.Counts.{calls_of, calls_to, counts_of};
ghost use Rattle.counts.specs.Inner.{told_by, added_by, counts_by, stepped_by, steps_by};

use crate::{Counts, Tally};
use calls::{Call, Reply};
use file::Event;
use session::Session;
use table::Table;
use time::Clock;

// What a call and its answer tell of every stream.
#[derive(Clone, Copy)]
pub(crate) struct Told {
    number: u64,
    stream: u64,
    duration: u64,
    horizon: Clock,
    clock: Clock,
}

// A session, and the counts of the calls so far.
#[derive(Clone, Copy)]
pub(crate) struct Step {
    session: Session,
    counts: Counts,
}

// Runs the events of a trace.
pub(crate) fn run(opened: Session, trace: &[u8], events: usize) -> Counts
    ensures { result ≡ counts_of (history_from [] opened (calls_to trace.now events)) }
{
    let mut step = Step {
        session: opened,
        counts: Counts::none(),
    };
    for i in 0..events {
        step = step.with_event(file::event_at(trace, i));
    }
    step.counts
}

impl Step {
    fn with_event(self, event: Event) -> Step
        ensures { result ≡ steps_by self (calls_of event) }
    {
        match trace::call_of(event) {
            Some(call) => self.with_call(call),
            None => self,
        }
    }

    // Makes a call, and adds what its answer tells.
    fn with_call(self, call: Call) -> Step
        ensures { result ≡ stepped_by self call }
    {
        let session = self.session;
        let counts = self.counts;
        let answer = session.call(call);
        let after = answer.session;
        let reply = answer.reply;
        let more = counted(session, call, reply);
        Step {
            session: after,
            counts: counts.and(more),
        }
    }
}

// What a call adds to each tally.
fn counted(session: Session, call: Call, reply: Reply) -> Counts
    ensures { result ≡ counts_by session call reply }
{
    let told = Told::by(session, call, reply);
    let streams = session.streams;
    let mut rows = [Tally::default(); Table::STREAMS_MAX];
    for (i, row) in rows.iter_mut().enumerate() {
        *row = told.of(streams[i].deadline, i);
    }
    Counts { rows: Some(rows) }
}

impl Told {
    // What a call and its answer tell.
    fn by(session: Session, call: Call, reply: Reply) -> Told
        ensures { result ≡ told_by session call reply }
    {
        let horizon = session.horizon;
        let clock = session.clock;
        Told {
            number: reply.number(),
            stream: reply.stream(call),
            duration: duration_of(call),
            horizon,
            clock,
        }
    }

    // What is added to the tally of a stream, counted from 0, whose deadline this is.
    // An answer is told by its number, as the definitions tell it: a match on replies would leave out a refusal of that number, of which the clause speaks as of any reply.
    fn of(self, deadline: Clock, i: usize) -> Tally
        requires { i < streams_max }
        ensures { result ≡ added_by self deadline.0 i }
    {
        let horizon = self.horizon;
        let clock = self.clock;
        let closing = (self.number == 23) & (deadline == horizon);
        let late = closing & (deadline < clock);
        let concerned = self.stream == i as u64 + 1;
        let completed = (self.number == 25) | (self.number == 26);
        let lasted = only_if(completed & concerned, self.duration);
        Tally {
            jobs: only_if(closing, 1),
            late: only_if(late, 1),
            expired: only_if((self.number == 22) & concerned, 1),
            time: lasted,
            largest: lasted,
        }
    }
}

// How long the request took that a call reports; 0 of another call.
fn duration_of(call: Call) -> u64
    ensures { result ≡ duration_of call }
{
    match call {
        Call::Done { duration } => duration,
        _ => 0,
    }
}

// A number where something holds, and else 0.
fn only_if(holds: bool, n: u64) -> u64
    ensures { result ≡ if holds n 0 }
{
    if holds { n } else { 0 }
}
