// What may stand for an event: itself or, where it is a turn that sends, an own turn of any request in the set.
ghost use Rattle.std.specs.Prelude.{◌≡◌, [], ◌∷◌, map, ◌<◌, get_or};
ghost use Rattle.table.specs.Ranges.{streams_max};
ghost use Rattle.stream.specs.Stream.{queue_max};
ghost use Rattle.logs.specs.Choices.{sends, alike, is_first, is_choice, own_turn_of, cells_max, choices_from, is_send, may_be};
ghost use Rattle.logs.specs.Following.{next_by, lines_of_nexts, first_that_is};
ghost use Rattle.logs.specs.Inner.{found_if, only_at};

use calls::Call;
use file::Event;
use listing::Text;
use session::Session;
use stream::Stream;
use table::Table;

// The cells of all queues are counted through, those of each stream behind those of the one before it.
// Two loops go over them: one stops at a line, and one at a count. Each counts the cells as `choices_from` does, on which its proof goes.
const CELLS: usize = Table::STREAMS_MAX * Stream::QUEUE_MAX;

// Looks for a line among those of what may stand for an event, and has the session after it.
pub(crate) fn search(session: Session, number: u64, event: Event, line: &[u8]) -> Option<Session>
    ensures { result ≡ first_that_is line.now (map (next_by session number) (may_be session event)) }
{
    if is_send(session, event) {
        return search_choices(session, number, line);
    }
    search_event(session, number, event, line)
}

// Looks for it among those of the requests that may be sent.
fn search_choices(session: Session, number: u64, line: &[u8]) -> Option<Session>
    ensures { result ≡ first_that_is line.now (map (next_by session number) (choices_from session 0 cells_max)) }
{
    for m in 0..CELLS {
        if is_choice(session, m / Stream::QUEUE_MAX, m % Stream::QUEUE_MAX) {
            let search = search_event(session, number, own_turn_of(m), line);
            if search.is_some() {
                return search;
            }
        }
    }
    None
}

// Whether it is that of an event.
fn search_event(session: Session, number: u64, event: Event, line: &[u8]) -> Option<Session>
    ensures { result ≡ first_that_is line.now (next_by session number event ∷ []) }
{
    let stepped = trace::step(session, number, event);
    search_text(stepped.session, stepped.text, line)
}

// Whether it is that of a text, with the session after it.
pub(crate) fn search_text(after: Session, text: Text, line: &[u8]) -> Option<Session>
    ensures { result ≡ found_if after line.now text }
{
    if line == text.as_bytes() {
        return Some(after);
    }
    None
}

// Line k of what may stand for an event, counted from 0; there is nothing in one past the last.
pub(crate) fn line_at(session: Session, number: u64, event: Event, k: usize) -> Text
    ensures { result ≡ get_or (lines_of_nexts (map (next_by session number) (may_be session event))) k [] }
{
    if is_send(session, event) {
        return line_of_choice(session, number, k);
    }
    let stepped = trace::step(session, number, event);
    only(stepped.text, k)
}

// Line k of the requests that may be sent.
fn line_of_choice(session: Session, number: u64, k: usize) -> Text
    ensures { result ≡ get_or (lines_of_nexts (map (next_by session number) (choices_from session 0 cells_max))) k [] }
{
    let mut ahead = k;
    for m in 0..CELLS {
        if is_choice(session, m / Stream::QUEUE_MAX, m % Stream::QUEUE_MAX) {
            if ahead == 0 {
                return trace::step(session, number, own_turn_of(m)).text;
            }
            ahead -= 1;
        }
    }
    Text::empty()
}

// Line k of a single one.
pub(crate) fn only(text: Text, k: usize) -> Text
    ensures { result ≡ only_at text k }
{
    if k == 0 { text } else { Text::empty() }
}

// The own turn of the request at a cell.
fn own_turn_of(m: usize) -> Event
    requires { m < cells_max }
    ensures { result ≡ own_turn_of m }
{
    Event::OwnTurn {
        stream: (m / Stream::QUEUE_MAX) as u64 + 1,
        index: (m % Stream::QUEUE_MAX) as u64,
    }
}

// That j is the index of a place is a fact of one argument, and of each function that has it.
// Whether request j of stream i, both counted from 0, may be sent: it is in the set, and the first of its queue with its place and tag. What is not queued is not looked at further.
fn is_choice(session: Session, i: usize, j: usize) -> bool
    requires { (i < streams_max) × (j < queue_max) }
    ensures { result ≡ is_choice session i j }
{
    let streams = session.streams;
    let x = streams[i];
    if x.queued <= j {
        return false;
    }
    let call = Call::OwnTurn {
        stream: i as u64 + 1,
        index: j as u64,
    };
    sends(session, call) && is_first(x, j)
}

// Whether no earlier request of a queue has the place and the tag of this one.
fn is_first(x: Stream, j: usize) -> bool
    requires { j < queue_max }
    ensures { result ≡ is_first x j }
{
    (0..j).all(|k| !alike(x, k, j))
}

// Whether two requests of a queue have the same place and tag.
fn alike(x: Stream, j: usize, k: usize) -> bool
    requires { (j < queue_max) × (k < queue_max) }
    ensures { result ≡ alike x j k }
{
    x.places[j] == x.places[k] && x.tags[j] == x.tags[k]
}

// Whether an event is a turn that sends.
fn is_send(session: Session, event: Event) -> bool
    ensures { result ≡ is_send session event }
{
    matches!(event, Event::Turn) && sends(session, Call::Turn)
}

// Whether a call is answered by 21. It is asked by the number, as the definition asks it: replies hold a refusal of any number too.
fn sends(session: Session, call: Call) -> bool
    ensures { result ≡ sends session call }
{
    let answer = session.call(call);
    answer.reply.number() == 21
}
