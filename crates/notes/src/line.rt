// The lines of notes: read from their fields, and shown.
ghost use Rattle.std.specs.Prelude.{◌≡◌, ◌≤◌};
ghost use Rattle.file.specs.declared.event.Event.TheVariants.{Arrival};
ghost use Rattle.listing.specs.Line.{text_of};
ghost use Rattle.notes.specs.Line.{word_line, order_line, table_line, number_line, stream_line, pair_line, triple_line, fields_line, line_of, event_shown, order_shown, line_shown, stream_at, after_head, head_lines, line_at};

use crate::draft::{Draft, Place, takes_name};
use file::{Event, Form};
use listing::{Text, worded};
use order::Order;
use table::Table;

// A line: nothing, a number of the table, an order, a stream, an event, or none of these, which is a case of its own, since `after`, `trace_after` and `line_shown` each say what becomes of it.
#[derive(Clone, Copy)]
pub enum Line {
    Blank,
    Worst(u32),
    Span(u32),
    Padding(u32),
    Ordered(Order),
    Stream { reserved: u32, period: u32 },
    Call(Event),
    Wrong,
}

// The words as they are held: their letters are digits to the base 256.
const WORST: u64 = 0x77_6f_72_73_74;

const SPAN: u64 = 0x73_70_61_6e;

const PADDING: u64 = 0x70_61_64_64_69_6e_67;

const STREAM: u64 = 0x73_74_72_65_61_6d;

const ARRIVAL: u64 = 0x61_72_72_69_76_61_6c;

const TURN: u64 = 0x74_75_72_6e;

const OWN: u64 = 0x6f_77_6e;

const DONE: u64 = 0x64_6f_6e_65;

const CLOCK: u64 = 0x63_6c_6f_63_6b;

const NEAREST: u64 = 0x6e_65_61_72_65_73_74;

const SWEEP: u64 = 0x73_77_65_65_70;

// The most that the stream of an event may be.
const BYTE_MAX: u64 = 0xff;

// The line that has been read.
pub(crate) fn line_of(draft: Draft) -> Line
    ensures { result ≡ line_of draft }
{
    match draft.place {
        Place::Between | Place::Within | Place::Comment | Place::Returned => fields_line(draft),
        Place::Stray | Place::Amiss => Line::Wrong,
    }
}

// The line of the fields, by how many there are.
#[tactic(auto, using(file::proofs::Choices::choices), unfolding(crate::specs::Line::fields_line))]
pub(crate) fn fields_line(draft: Draft) -> Line
    ensures { result ≡ fields_line draft }
{
    if draft.fields == 0 {
        return Line::Blank;
    }
    if draft.fields == 1 {
        return word_line(draft.word);
    }
    if draft.fields == 2 {
        return number_line(draft.word, draft.last);
    }
    if draft.fields == 3 {
        return pair_line(draft.word, draft.before, draft.last);
    }
    triple_line(draft.word, draft.earlier, draft.before, draft.last)
}

// The line of a word alone.
#[tactic(auto, using(file::proofs::Choices::choices), unfolding(crate::specs::Line::word_line, crate::specs::Draft::held_after, listing::specs::Line::ascii))]
pub(crate) fn word_line(word: u64) -> Line
    ensures { result ≡ word_line word }
{
    if word == TURN {
        return Line::Call(Event::Turn);
    }
    Line::Wrong
}

// The line of a word and a number, or a name as it is held.
#[tactic(auto, using(file::proofs::Choices::choices), unfolding(crate::specs::Line::number_line, crate::specs::Draft::held_after, listing::specs::Line::ascii))]
pub(crate) fn number_line(word: u64, n: u64) -> Line
    ensures { result ≡ number_line word n }
{
    if word == DONE {
        return Line::Call(Event::Done { duration: n });
    }
    if word == CLOCK {
        return Line::Call(Event::Clock { time: n });
    }
    if takes_name(word) {
        return order_line(n);
    }
    match u32::try_from(n) {
        Ok(n) => table_line(word, n),
        Err(_) => Line::Wrong,
    }
}

// The line of an order's name.
#[tactic(auto, using(file::proofs::Choices::choices), unfolding(crate::specs::Line::order_line, crate::specs::Draft::held_after, listing::specs::Line::ascii))]
fn order_line(name: u64) -> Line
    ensures { result ≡ order_line name }
{
    if name == NEAREST {
        return Line::Ordered(Order::Nearest);
    }
    if name == SWEEP {
        return Line::Ordered(Order::Sweep);
    }
    Line::Wrong
}

// The line of a word and a number of the table.
#[tactic(auto, using(file::proofs::Choices::choices), unfolding(crate::specs::Line::table_line, crate::specs::Draft::held_after, listing::specs::Line::ascii))]
fn table_line(word: u64, n: u32) -> Line
    ensures { result ≡ table_line word n }
{
    if word == WORST {
        return Line::Worst(n);
    }
    if word == SPAN {
        return Line::Span(n);
    }
    if word == PADDING {
        return Line::Padding(n);
    }
    Line::Wrong
}

// The line of a word and two numbers.
#[tactic(auto, using(file::proofs::Choices::choices), unfolding(crate::specs::Line::pair_line, crate::specs::Draft::held_after, listing::specs::Line::ascii))]
pub(crate) fn pair_line(word: u64, a: u64, b: u64) -> Line
    ensures { result ≡ pair_line word a b }
{
    if word == STREAM {
        return stream_line(a, b);
    }
    if BYTE_MAX < a {
        return Line::Wrong;
    }
    if word == ARRIVAL {
        return Line::Call(Event::Arrival {
            stream: a,
            place: b,
            tag: 0,
        });
    }
    if word == OWN {
        return Line::Call(Event::OwnTurn {
            stream: a,
            index: b,
        });
    }
    Line::Wrong
}

// The line of a stream.
#[tactic(auto, using(file::proofs::Choices::choices), unfolding(crate::specs::Line::stream_line))]
fn stream_line(a: u64, b: u64) -> Line
    ensures { result ≡ stream_line a b }
{
    let Ok(reserved) = u32::try_from(a) else {
        return Line::Wrong;
    };
    let Ok(period) = u32::try_from(b) else {
        return Line::Wrong;
    };
    Line::Stream { reserved, period }
}

// The line of a word and three numbers.
#[tactic(auto, using(file::proofs::Choices::choices), unfolding(crate::specs::Line::triple_line, crate::specs::Draft::held_after, listing::specs::Line::ascii))]
pub(crate) fn triple_line(word: u64, a: u64, b: u64, c: u64) -> Line
    ensures { result ≡ triple_line word a b c }
{
    if word != ARRIVAL {
        return Line::Wrong;
    }
    if BYTE_MAX < a {
        return Line::Wrong;
    }
    let Ok(tag) = u32::try_from(c) else {
        return Line::Wrong;
    };
    Line::Call(Event::Arrival {
        stream: a,
        place: b,
        tag,
    })
}

// How many lines of the notes of a file stand before its streams.
pub fn head_lines(form: Form) -> usize
    ensures value { result ≡ head_lines form }
    ensures upper_bound { result ≤ 4 }
{
    match form {
        Form::Two => 3,
        Form::Three => 4,
    }
}

// The line at i of the notes of a file, counted from 0: the three numbers of its table, its order if it has a third entry, its streams, and the events.
// Of its two callers one has these four from a layout and the other makes three of them up, so no struct holds them.
#[tactic(auto, using(file::proofs::Choices::choices), unfolding(crate::specs::Line::line_at))]
pub fn line_at(form: Form, order: Order, table: Table, trace: &[u8], i: usize) -> Line
    ensures { result ≡ line_at form order table trace.now i }
{
    if i == 0 {
        return Line::Worst(table.worst);
    }
    if i == 1 {
        return Line::Span(table.span);
    }
    if i == 2 {
        return Line::Padding(table.padding);
    }
    let head = head_lines(form);
    if i < head {
        return Line::Ordered(order);
    }
    after_head(table, trace, i - head)
}

// The line at i of those after the head.
#[tactic(auto, using(file::proofs::Choices::choices), unfolding(crate::specs::Line::after_head))]
fn after_head(table: Table, trace: &[u8], i: usize) -> Line
    ensures { result ≡ after_head table trace.now i }
{
    if i < table.count {
        return stream_at(table, i);
    }
    Line::Call(file::event_at(trace, i - table.count))
}

#[tactic(auto, using(file::proofs::Choices::choices), unfolding(crate::specs::Line::stream_at))]
fn stream_at(table: Table, i: usize) -> Line
    ensures { result ≡ stream_at table i }
{
    if Table::STREAMS_MAX <= i {
        return Line::Wrong;
    }
    Line::Stream {
        reserved: table.reserved[i],
        period: table.period[i],
    }
}

// A line as it is printed. What is no line of notes is an empty one.
#[tactic(auto, using(file::proofs::Choices::choices), unfolding(listing::specs::Line::ascii))]
pub fn shown(line: Line) -> Text
    ensures { result ≡ text_of (line_shown line) }
{
    match line {
        Line::Blank | Line::Wrong => worded(b"", &[]),
        Line::Worst(n) => worded(b"worst", &[u64::from(n)]),
        Line::Span(n) => worded(b"span", &[u64::from(n)]),
        Line::Padding(n) => worded(b"padding", &[u64::from(n)]),
        Line::Ordered(order) => order_shown(order),
        Line::Stream { reserved, period } => worded(
            b"stream",
            &[u64::from(reserved), u64::from(period)],
        ),
        Line::Call(event) => event_shown(event),
    }
}

#[tactic(auto, using(file::proofs::Choices::choices), unfolding(listing::specs::Line::ascii))]
fn order_shown(order: Order) -> Text
    ensures { result ≡ text_of (order_shown order) }
{
    match order {
        Order::Nearest => worded(b"order nearest", &[]),
        Order::Sweep => worded(b"order sweep", &[]),
    }
}

#[tactic(auto, using(file::proofs::Choices::choices), unfolding(listing::specs::Line::ascii))]
fn event_shown(event: Event) -> Text
    ensures { result ≡ text_of (event_shown event) }
{
    match event {
        Event::Arrival { stream, place, tag } => arrival_shown(stream, place, tag),
        Event::Turn => worded(b"turn", &[]),
        Event::OwnTurn { stream, index } => worded(b"own", &[stream, index]),
        Event::Done { duration } => worded(b"done", &[duration]),
        Event::Clock { time } => worded(b"clock", &[time]),
        Event::Malformed => worded(b"", &[]),
    }
}

// An arrival's tag is shown where it is not 0.
#[tactic(auto, using(file::proofs::Choices::choices, crate::proofs::Tags::tag_shown_lem), unfolding(listing::specs::Line::ascii))]
fn arrival_shown(stream: u64, place: u64, tag: u32) -> Text
    ensures { result ≡ text_of (event_shown (Arrival stream place tag)) }
{
    if tag == 0 {
        return worded(b"arrival", &[stream, place]);
    }
    worded(b"arrival", &[stream, place, u64::from(tag)])
}
