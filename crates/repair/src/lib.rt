// Salvage of broken session files.
#![tactic(auto)]

mod change;
mod events;
mod pieces;

ghost use Rattle.std.specs.Prelude.{true, ◌≡◌, ◌++◌, ◌+◌, ◌-◌, ◌≤◌, ◌^◌, length, drop};
ghost use Rattle.file.specs.File.{events_max};
ghost use Rattle.file.specs.Refusal.{refusal_number};
ghost use Rattle.file.specs.Reading.{events_in, trace_start, trace_in};
ghost use Rattle.repair.specs.Salvage.{is_salvageable, kept_count, salvaged_file, put_on, cuts_of, list_from, salvage_of, salvaged_on, listed_on};
ghost use Rattle.repair.specs.Pieces.{taken_of};

pub use change::Change;
pub use events::keep;
use events::kept_in;
use file::{Event, Form, Refusal};
pub use pieces::{Listed, Rest};

// What is taken of an old file: how many streams it has, and where its trace starts.
#[derive(Clone, Copy, Debug, PartialEq, Eq)]
pub struct Taken {
    pub count: usize,
    pub start: usize,
}

// How long the file is that was written and how many changes are listed, and 0; or the refusal, and zeros. The C interface hands it out.
#[repr(C)]
#[derive(Clone, Copy, Debug, PartialEq, Eq)]
pub struct Salvaged {
    pub number: u64,
    pub length: usize,
    pub changes: usize,
}

// Takes the table body from the place just after two entries. The first bytes of a file tell as much as the whole.
pub fn take(old: &[u8]) -> Result<Taken, Refusal>
    ensures { result ≡ taken_of old.now }
{
    let outline = file::outline_of(old)?;
    match outline.form {
        Form::Two => Ok(Taken {
            count: outline.count,
            start: outline.start,
        }),
        Form::Three => Err(Refusal::Layout),
    }
}

// Writes a sound file of what is sound in an old one, and lists each change; or refuses, and leaves both buffers as they were.
pub fn salvage(old: &[u8], out: &mut [u8], changes: &mut [[u64; 2]]) -> Salvaged
    ensures value { result ≡ salvage_of old.now out.old changes.old }
    ensures out_after { out.new ≡ salvaged_on old.now out.old changes.old }
    ensures changes_after { changes.new ≡ listed_on old.now out.old changes.old }
{
    let taken = match take(old) {
        Ok(taken) => taken,
        Err(refusal) => return unsalvaged(refusal),
    };
    let start = taken.start;
    let trace = &old[start..];
    let kept = kept_in(trace, Event::MOST);
    let length = start + Event::SIZE * kept;
    let stay = file::has_contents(old, Form::Two, taken.count, kept);
    let listed = usize::from(!stay) + listed_in(trace, kept);
    if (out.len() < length) | (changes.len() < listed) {
        return unsalvaged(Refusal::Room);
    }
    put_file(old, start, kept, out);
    put_list(stay, trace, start as u64, changes);
    Salvaged {
        number: 0,
        length,
        changes: listed,
    }
}

// Puts the file that is salvaged, of which so many events are kept, at the start of a buffer that has room for it.
fn put_file(old: &[u8], start: usize, kept: usize, out: &mut [u8])
    requires value { (is_salvageable old.now ≡ true) × (start ≡ trace_start old.now) × (kept ≡ kept_count events_max (trace_in old.now)) }
    requires in_bounds { length (salvaged_file old.now) ≤ length out.old }
    ensures { out.new ≡ salvaged_file old.now ++ drop (length (salvaged_file old.now)) out.old }
{
    file::put_head(out, Form::Two, file::table_of(old), kept);
    keep(&old[start..], Event::MOST, &mut out[start..]);
}

// Puts the whole list at the start of one that has room for it: whether the contents are rewritten, and then the changes of the trace.
// Whether they stay is the first argument of `list_from`, by which the list is defined.
fn put_list(stay: bool, trace: &[u8], start: u64, changes: &mut [[u64; 2]])
    requires trace_bound { start + length trace.now ≤ 2 ^ 64 }
    requires trace_in_bounds { length (list_from stay start trace.now) ≤ length changes.old }
    ensures { changes.new ≡ put_on (list_from stay start trace.now) changes.old }
{
    let rest = Rest {
        at: start,
        room: Event::MOST,
    };
    if stay {
        rest.put_changes(trace, changes);
    } else {
        let contents = Change::contents();
        changes[0] = contents.into();
        rest.put_changes(trace, &mut changes[1..]);
    }
}

fn unsalvaged(refusal: Refusal) -> Salvaged
    ensures { result ≡ record { number = refusal_number refusal; length = 0; changes = 0 } }
{
    Salvaged {
        number: refusal.number(),
        length: 0,
        changes: 0,
    }
}

// How many changes are listed of a trace of which so many events are kept.
#[tactic(auto, using(file::proofs::Choices::choices))]
pub(crate) fn listed_in(trace: &[u8], kept: usize) -> usize
    requires { kept ≤ events_in trace.now }
    ensures { result ≡ events_in trace.now - kept + length (cuts_of 0 trace.now) }
{
    let torn = trace.len() % Event::SIZE != 0;
    trace.len() / Event::SIZE - kept + usize::from(torn)
}
