// The events of a trace.
ghost use Rattle.std.specs.Prelude.{◌≡◌, ◌+◌, ◌≤◌, ◌^◌};
ghost use Rattle.std.proofs.lemmas.List.Edits.{sets};
ghost use Rattle.table.specs.Fold.{all_to};
ghost use Rattle.file.specs.File.{event_size, event_cells, bytes_of};
ghost use Rattle.file.specs.Refusal.{answer_by};
ghost use Rattle.file.specs.Reading.{event_of, event_at, formed, is_trace};
ghost use Rattle.file.specs.Writing.{is_storable, put_refusal, with_event};

use crate::refusal::Refusal;
use crate::word::{put_word, word_at};
use cells::{number_at, put_number};

// What an event asks for. Streams are counted from 1, a queue's places from 0.
// Malformed is a case of its own and no None, since `event_of`, `formed`, `bytes_of` and the laws speak of it.
#[derive(Clone, Copy, Debug, PartialEq, Eq)]
pub enum Event {
    Arrival { stream: u64, place: u64, tag: u32 },
    Turn,
    OwnTurn { stream: u64, index: u64 },
    Done { duration: u64 },
    Clock { time: u64 },
    Malformed,
}

impl Event {
    pub const SIZE: usize = 16;

    pub const MOST: usize = 4_000;

    // The most that the byte of a stream holds.
    const STREAM_MAX: u64 = 255;
}

// The event at i of a trace, counted from 0; past the last one, Malformed.
#[tactic(auto, using(crate::proofs::Choices::choices), unfolding(crate::specs::Reading::event_at, crate::specs::Reading::event_from))]
pub fn event_at(trace: &[u8], i: usize) -> Event
    ensures { result ≡ event_at trace.now i }
{
    if trace.len() / Event::SIZE <= i {
        return Event::Malformed;
    }
    let at = Event::SIZE * i;
    if number_at(trace, at + 6, 2) != 0 {
        return Event::Malformed;
    }
    event_of(
        number_at(trace, at, 1),
        number_at(trace, at + 1, 1),
        word_at(trace, at + 2),
        number_at(trace, at + 8, 8),
    )
}

// The event of a kind, a stream, a tag and a value; only an arrival has a tag. The kinds, 1 to 5, are numbers of the file's layout.
#[tactic(auto, using(crate::proofs::Choices::choices), unfolding(crate::specs::Reading::event_of))]
fn event_of(kind: u64, stream: u64, tag: u32, value: u64) -> Event
    ensures { result ≡ event_of kind stream tag value }
{
    match (kind, stream, tag, value) {
        (1, _, _, _) => Event::Arrival {
            stream,
            place: value,
            tag,
        },
        (2, 0, 0, 0) => Event::Turn,
        (3, _, 0, _) => Event::OwnTurn {
            stream,
            index: value,
        },
        (4, 0, 0, _) => Event::Done { duration: value },
        (5, 0, 0, _) => Event::Clock { time: value },
        _ => Event::Malformed,
    }
}

// Stores an event at i of a trace, counted from 0, or refuses and stores nothing.
#[tactic(auto, using(crate::proofs::Choices::choices), unfolding(crate::specs::Writing::put_refusal, crate::specs::Writing::with_event))]
pub fn put_event(trace: &mut [u8], i: usize, event: Event) -> Result<(), Refusal>
    ensures value { result ≡ answer_by (put_refusal trace.old i event) tt }
    ensures trace_after { trace.new ≡ with_event trace.old i event }
{
    if !is_storable(event) {
        return Err(Refusal::Layout);
    }
    if trace.len() / Event::SIZE <= i {
        return Err(Refusal::Room);
    }
    put_bytes_of(trace, Event::SIZE * i, event);
    Ok(())
}

// Whether an event has bytes: it is not malformed, and its stream has room in one byte.
#[tactic(auto, unfolding(crate::specs::Writing::is_storable))]
fn is_storable(event: Event) -> bool
    ensures { result ≡ is_storable event }
{
    match event {
        Event::Arrival { stream, .. } | Event::OwnTurn { stream, .. } => {
            stream <= Event::STREAM_MAX
        }
        Event::Turn | Event::Done { .. } | Event::Clock { .. } => true,
        Event::Malformed => false,
    }
}

// Stores the bytes of an event from an index on; of a malformed one there are none.
#[tactic(auto, unfolding(crate::specs::File::bytes_of))]
fn put_bytes_of(trace: &mut [u8], at: usize, event: Event)
    requires { at + event_size ≤ 2 ^ 63 }
    ensures { trace.new ≡ sets trace.old at (bytes_of event) }
{
    match event {
        Event::Arrival { stream, place, tag } => put_cells(trace, at, 1, stream, tag, place),
        Event::Turn => put_cells(trace, at, 2, 0, 0, 0),
        Event::OwnTurn { stream, index } => put_cells(trace, at, 3, stream, 0, index),
        Event::Done { duration } => put_cells(trace, at, 4, 0, 0, duration),
        Event::Clock { time } => put_cells(trace, at, 5, 0, 0, time),
        Event::Malformed => {}
    }
}

// Stores the cells of an event from an index on.
#[tactic(auto, using(crate::proofs::Stores::event_stored))]
fn put_cells(trace: &mut [u8], at: usize, kind: u64, stream: u64, tag: u32, value: u64)
    requires { at + event_size ≤ 2 ^ 63 }
    ensures { trace.new ≡ sets trace.old at (event_cells kind stream tag value) }
{
    put_number(trace, at, 1, kind);
    put_number(trace, at + 1, 1, stream);
    put_word(trace, at + 2, tag);
    put_number(trace, at + 6, 2, 0);
    put_number(trace, at + 8, 8, value);
}

// Whether an event is as laid out.
pub fn is_formed(event: Event) -> bool
    ensures { result ≡ formed event }
{
    event != Event::Malformed
}

// Whether a trace body is as laid out.
#[tactic(auto, unfolding(crate::specs::Reading::is_trace))]
pub(crate) fn is_trace(trace: &[u8]) -> bool
    ensures { result ≡ is_trace trace.now }
{
    let events = trace.len() / Event::SIZE;
    (trace.len() % Event::SIZE == 0) & (events <= Event::MOST) && all_formed(trace, events)
}

fn all_formed(trace: &[u8], events: usize) -> bool
    ensures { result ≡ all_to (λ i. formed (event_at trace.now i)) events }
{
    (0..events).all(|i| is_formed(event_at(trace, i)))
}
