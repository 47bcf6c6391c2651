// The events of a broken trace: which are kept, and which are listed as dropped.
ghost use Rattle.std.specs.Prelude.{◌&&◌, ◌≡◌, ◌+◌, ◌≤◌, ◌^◌, ltb, length};
ghost use Rattle.std.proofs.lemmas.List.Edits.{sets};
ghost use Rattle.file.specs.Reading.{events_in, event_at, formed};
ghost use Rattle.repair.specs.Pieces.{changes_in};
ghost use Rattle.repair.specs.Salvage.{kept_of, kept_count, put_on, drops_to};

use crate::change::Change;
use crate::pieces::Rest;
use file::{Event, event_at, is_formed};

// Whether the event at i of a trace is kept, where so many were before it.
fn is_kept(trace: &[u8], i: usize, kept: usize, room: usize) -> bool
    ensures { result ≡ (formed (event_at trace.now i) && ltb kept room) }
{
    is_formed(event_at(trace, i)) & (kept < room)
}

// How many events of a trace are kept, of at most so many.
pub(crate) fn kept_in(trace: &[u8], room: usize) -> usize
    ensures { result ≡ kept_count room trace.now }
{
    let mut kept: usize = 0;
    for i in 0..trace.len() / Event::SIZE {
        if is_kept(trace, i, kept, room) {
            kept += 1;
        }
    }
    kept
}

// Copies the events that are kept of a trace to the start of a buffer, and answers how many they are. What would stand past its end is left out.
pub fn keep(trace: &[u8], room: usize, out: &mut [u8]) -> usize
    ensures value { result ≡ kept_count room trace.now }
    ensures out_after { out.new ≡ sets out.old 0 (kept_of room trace.now) }
{
    let mut kept: usize = 0;
    for i in 0..trace.len() / Event::SIZE {
        if is_kept(trace, i, kept, room) {
            let at = Event::SIZE * i;
            cells::put_bytes(out, Event::SIZE * kept, &trace[at..at + Event::SIZE]);
            kept += 1;
        }
    }
    kept
}

impl Rest {
    // Puts the changes of what is still to come at the start of a list that has room for them: the events that are not kept, and a torn rest.
    pub(crate) fn put_changes(self, trace: &[u8], changes: &mut [[u64; 2]])
        requires trace_bound { self.at + length trace.now ≤ 2 ^ 64 }
        requires trace_in_bounds { length (changes_in self trace.now) ≤ length changes.old }
        ensures { changes.new ≡ put_on (changes_in self trace.now) changes.old }
    {
        let events = trace.len() / Event::SIZE;
        let dropped = self.put_drops(trace, changes);
        if trace.len() % Event::SIZE != 0 {
            let cut = Change::cut(self.at + (Event::SIZE * events) as u64);
            changes[dropped] = cut.into();
        }
    }

    // Puts the events that are not kept at the start of a list, and answers how many they are.
    fn put_drops(self, trace: &[u8], changes: &mut [[u64; 2]]) -> usize
        requires trace_bound { self.at + length trace.now ≤ 2 ^ 64 }
        requires trace_in_bounds { length (drops_to self.room self.at trace.now (events_in trace.now)) ≤ length changes.old }
        ensures value { result ≡ length (drops_to self.room self.at trace.now (events_in trace.now)) }
        ensures changes_after { changes.new ≡ put_on (drops_to self.room self.at trace.now (events_in trace.now)) changes.old }
    {
        let events = trace.len() / Event::SIZE;
        let mut kept: usize = 0;
        for i in 0..events {
            if is_kept(trace, i, kept, self.room) {
                kept += 1;
            } else {
                let dropped = Change::dropped(self.at + (Event::SIZE * i) as u64);
                changes[i - kept] = dropped.into();
            }
        }
        events - kept
    }
}
