// Notes: a session written by hand, a line for each table number, the order if there is one, and a line for each stream and event.
// They are read byte by byte into a table and a trace; and a line of them is shown.
#![tactic(auto)]

mod draft;
mod fault;
mod heard;
mod line;
mod numbers;
mod word;

ghost use Rattle.std.specs.Prelude.{◌≡◌, ◌<◌};
ghost use Rattle.file.specs.Refusal.{answer_by};
ghost use Rattle.notes.specs.declared.Flaw.TheVariants.{Refused};
ghost use Rattle.notes.specs.Notes.{started, stopped, next_line, advanced, after_number, takes_order, after_order, after_stream, began_by, after_event, after, expected_by, lengthened, written_by, read, line_refusal, trace_after, line_ended, byte_read, bytes_read, filed_by, ended};

pub use draft::{Draft, Kind, Place, is_gap};
pub use fault::Fault;
use file::{Event, Form, Refusal};
pub use heard::{Field, Heard};
use line::line_of;
pub use line::{Line, head_lines, line_at, shown};
use order::Order;
use table::Table;
pub use word::read_as;

// What has been read of some notes: the number of the line that is being read, how many of the three table numbers there are,
// the form of the file, which has a third entry where there was an order, and that order, the table so far, how many events there are and in which line the first stands, the line so far and what a message can quote of it, why an event was refused its place in the trace, and whether the line is wrong. Then nothing more is read.
// Form and order stand side by side, and so does whether the line is wrong with what has been read of it: OrderIsOfItsLine and LineIsJudged speak of each.
#[derive(Clone, Copy)]
pub struct Notes {
    pub line: u64,
    pub numbers: u64,
    pub form: Form,
    pub order: Order,
    pub table: Table,
    pub events: usize,
    pub began: Option<u64>,
    pub draft: Draft,
    pub heard: Heard,
    pub refused: Option<Refusal>,
    pub wrong: bool,
}

// What may stand in the next line.
#[derive(Clone, Copy, Debug, PartialEq, Eq)]
pub enum Expected {
    Worst,
    Span,
    Padding,
    OrderStreamOrEvent,
    StreamOrEvent,
    Event,
    NoMore,
}

// A file that was written: how long it is, and, where its table has no stream, in which line the first event stands.
#[derive(Clone, Copy, Debug, PartialEq, Eq)]
pub enum Composed {
    Written(usize),
    Streamless { len: usize, event: Option<u64> },
}

// Why no file is written: which line is wrong and what with it, that the notes end too early, or the refusal of the writer.
#[derive(Clone, Copy, Debug, PartialEq, Eq)]
pub enum Flaw {
    Wrong {
        line: u64,
        fault: Fault,
        expected: Expected,
    },
    Unfinished(Expected),
    Refused(Refusal),
}

impl From<Refusal> for Flaw {
    ghost from_gives = { λ refusal flaw. flaw ≡ Refused refusal };

    fn from(refusal: Refusal) -> Flaw {
        Flaw::Refused(refusal)
    }
}

// Reads some bytes more of some notes, whose events are at the start of a trace.
pub fn feed(notes: Notes, bytes: &[u8], trace: &mut [u8]) -> Notes
    ensures value { result ≡ (bytes_read (read notes trace.old) bytes.now).notes }
    ensures trace_after { trace.new ≡ (bytes_read (read notes trace.old) bytes.now).trace }
{
    let mut so_far = notes;
    for byte in bytes {
        so_far = with_byte(so_far, *byte, trace);
    }
    so_far
}

// Ends some notes, and writes their session file at the start of a buffer; of notes that are wrong or not whole it writes nothing.
pub fn finish(notes: Notes, trace: &mut [u8], out: &mut [u8]) -> Result<Composed, Flaw>
    ensures value { result ≡ (filed_by (ended notes trace.old).notes (ended notes trace.old).trace out.old).reply }
    ensures trace_after { trace.new ≡ (ended notes trace.old).trace }
    ensures out_after { out.new ≡ (filed_by (ended notes trace.old).notes (ended notes trace.old).trace out.old).out }
{
    with_byte(notes, b'\n', trace).filed(trace, out)
}

// One byte more.
fn with_byte(notes: Notes, byte: u8, trace: &mut [u8]) -> Notes
    ensures value { result ≡ (byte_read (read notes trace.old) byte).notes }
    ensures trace_after { trace.new ≡ (byte_read (read notes trace.old) byte).trace }
{
    if notes.wrong {
        return notes;
    }
    if byte == b'\n' {
        return end_line(notes, trace);
    }
    notes.lengthened(byte)
}

// The line has ended: an event goes to the trace, behind those before it.
fn end_line(notes: Notes, trace: &mut [u8]) -> Notes
    ensures value { result ≡ (line_ended notes trace.old).notes }
    ensures trace_after { trace.new ≡ (line_ended notes trace.old).trace }
{
    let line = line_of(notes.draft);
    let next = notes.after(line);
    if next.wrong {
        return next;
    }
    match put_line(trace, notes.events, line) {
        Ok(()) => next,
        Err(refusal) => Notes {
            refused: Some(refusal),
            ..next
        },
    }
}

// Stores the event of a line at i of a trace, or says why it is refused; of another line nothing is stored.
#[tactic(auto, using(file::proofs::Choices::choices))]
fn put_line(trace: &mut [u8], i: usize, line: Line) -> Result<(), Refusal>
    ensures value { result ≡ answer_by (line_refusal trace.old i line) tt }
    ensures trace_after { trace.new ≡ trace_after trace.old i line }
{
    if let Line::Call(event) = line {
        return file::put_event(trace, i, event);
    }
    Ok(())
}

impl Notes {
    // How many numbers of the table come before its streams.
    pub(crate) const TABLE_NUMBERS: u64 = 3;

    // No notes yet.
    pub fn start() -> Notes
        ensures { result ≡ started }
    {
        Notes {
            line: 1,
            numbers: 0,
            form: Form::Two,
            order: Order::Nearest,
            table: Table::default(),
            events: 0,
            began: None,
            draft: Draft::blank(),
            heard: Heard::none(),
            refused: None,
            wrong: false,
        }
    }

    // The notes after a line: the table numbers in order, then an order, then streams, then events.
    fn after(self, line: Line) -> Notes
        ensures { result ≡ after self line }
    {
        match line {
            Line::Blank => self.advanced(self.numbers, self.table, self.events, self.began),
            Line::Worst(worst) => self.after_number(
                0,
                Table {
                    worst,
                    ..self.table
                },
            ),
            Line::Span(span) => self.after_number(1, Table { span, ..self.table }),
            Line::Padding(padding) => self.after_number(
                2,
                Table {
                    padding,
                    ..self.table
                },
            ),
            Line::Ordered(order) => self.after_order(order),
            Line::Stream { reserved, period } => self.after_stream(reserved, period),
            Line::Call(_) => self.after_event(),
            Line::Wrong => self.stopped(),
        }
    }

    // The table with its number at this place, or a wrong line where another number has its turn.
    #[tactic(auto, using(file::proofs::Choices::choices), unfolding(crate::specs::Notes::after_number))]
    fn after_number(self, place: u64, table: Table) -> Notes
        requires { place < 3 }
        ensures { result ≡ after_number self place table }
    {
        if self.numbers == place {
            return self.advanced(place + 1, table, self.events, self.began);
        }
        self.stopped()
    }

    // Whether the next line may be that of an order.
    #[tactic(auto, using(file::proofs::Choices::choices), unfolding(crate::specs::Notes::takes_order))]
    fn takes_order(self) -> bool
        ensures { result ≡ takes_order self }
    {
        (self.numbers == Notes::TABLE_NUMBERS)
            & (self.form.third() == 0)
            & (self.table.count == 0)
            & (self.events == 0)
    }

    // An order, once and before any stream or event: the file has a third entry for it.
    #[tactic(auto, using(file::proofs::Choices::choices), unfolding(crate::specs::Notes::after_order))]
    fn after_order(self, order: Order) -> Notes
        ensures { result ≡ after_order self order }
    {
        if self.takes_order() {
            return Notes {
                form: Form::Three,
                order,
                ..self.advanced(self.numbers, self.table, self.events, self.began)
            };
        }
        self.stopped()
    }

    // One stream more: up to eight, before any event.
    #[tactic(auto, using(file::proofs::Choices::choices), unfolding(crate::specs::Notes::after_stream))]
    fn after_stream(self, reserved: u32, period: u32) -> Notes
        ensures { result ≡ after_stream self reserved period }
    {
        if self.numbers != Notes::TABLE_NUMBERS {
            return self.stopped();
        }
        if self.events != 0 {
            return self.stopped();
        }
        let mut table = self.table;
        let count = table.count;
        if Table::STREAMS_MAX <= count {
            return self.stopped();
        }
        table.reserved[count] = reserved;
        table.period[count] = period;
        table.count = count + 1;
        self.advanced(Notes::TABLE_NUMBERS, table, 0, self.began)
    }

    // One event more, up to 4,000.
    #[tactic(auto, using(file::proofs::Choices::choices), unfolding(crate::specs::Notes::after_event))]
    fn after_event(self) -> Notes
        ensures { result ≡ after_event self }
    {
        if self.numbers != Notes::TABLE_NUMBERS {
            return self.stopped();
        }
        if Event::MOST <= self.events {
            return self.stopped();
        }
        self.advanced(
            Notes::TABLE_NUMBERS,
            self.table,
            self.events + 1,
            self.began_by(),
        )
    }

    // The line of the first event, which is this one where it has the first.
    #[tactic(auto, using(file::proofs::Choices::choices), unfolding(crate::specs::Notes::began_by))]
    fn began_by(self) -> Option<u64>
        ensures { result ≡ began_by self }
    {
        if self.events == 0 {
            return Some(self.line);
        }
        self.began
    }

    // The notes after a right line, with what it has given them.
    fn advanced(self, numbers: u64, table: Table, events: usize, began: Option<u64>) -> Notes
        ensures { result ≡ advanced self numbers table events began }
    {
        Notes {
            line: next_line(self.line),
            numbers,
            table,
            events,
            began,
            draft: Draft::blank(),
            heard: Heard::none(),
            wrong: false,
            ..self
        }
    }

    // The notes, of which the line that is being read is wrong.
    fn stopped(self) -> Notes
        ensures { result ≡ stopped self }
    {
        Notes {
            wrong: true,
            ..self
        }
    }

    // The line that is being read has a byte more.
    fn lengthened(self, byte: u8) -> Notes
        ensures { result ≡ lengthened self byte }
    {
        Notes {
            draft: self.draft.with(byte),
            heard: self.heard.with(self.draft, byte),
            ..self
        }
    }

    // What is expected where a line is wrong, or where the notes end too early.
    #[tactic(auto, using(file::proofs::Choices::choices), unfolding(crate::specs::Notes::expected_by))]
    fn expected(self) -> Expected
        ensures { result ≡ expected_by self }
    {
        if self.numbers == 0 {
            return Expected::Worst;
        }
        if self.numbers == 1 {
            return Expected::Span;
        }
        if self.numbers == 2 {
            return Expected::Padding;
        }
        if self.takes_order() {
            return Expected::OrderStreamOrEvent;
        }
        if (self.events == 0) & (self.table.count < Table::STREAMS_MAX) {
            return Expected::StreamOrEvent;
        }
        if self.events < Event::MOST {
            return Expected::Event;
        }
        Expected::NoMore
    }

    // Writes the session file of notes that have ended, where they are right and whole.
    fn filed(self, trace: &[u8], out: &mut [u8]) -> Result<Composed, Flaw>
        ensures value { result ≡ (filed_by self trace.now out.old).reply }
        ensures out_after { out.new ≡ (filed_by self trace.now out.old).out }
    {
        if self.wrong {
            return Err(Flaw::Wrong {
                line: self.line,
                fault: self.fault(),
                expected: self.expected(),
            });
        }
        if self.numbers < Notes::TABLE_NUMBERS {
            return Err(Flaw::Unfinished(self.expected()));
        }
        if let Some(refusal) = self.refused {
            return Err(Flaw::Refused(refusal));
        }
        if trace.len() / Event::SIZE < self.events {
            return Err(Flaw::Refused(Refusal::Room));
        }
        let trace = &trace[..Event::SIZE * self.events];
        let len = file::write(self.table, self.form, self.order, trace, out)?;
        Ok(written_by(self.table.count, self.began, len))
    }
}

#[tactic(auto, using(crate::proofs::Choices::saturated))]
fn next_line(line: u64) -> u64
    ensures { result ≡ next_line line }
{
    line.saturating_add(1)
}

// A file whose table has no stream is told as such.
#[tactic(auto, using(file::proofs::Choices::choices), unfolding(crate::specs::Notes::written_by))]
fn written_by(streams: usize, began: Option<u64>, len: usize) -> Composed
    ensures { result ≡ written_by streams began len }
{
    if streams == 0 {
        return Composed::Streamless { len, event: began };
    }
    Composed::Written(len)
}
