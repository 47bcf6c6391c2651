// The session file: reading and writing.
#![tactic(auto)]

mod body;
mod contents;
mod event;
mod form;
mod head;
mod outline;
mod refusal;
mod word;

ghost use Rattle.std.specs.Prelude.{◌≡◌, ◌+◌, ◌*◌, ◌≤◌, length};
ghost use Rattle.table.specs.Ranges.{streams_max};
ghost use Rattle.file.specs.File.{table_start, third_length, events_max, event_size, file_of};
ghost use Rattle.file.specs.Refusal.{answer_by};
ghost use Rattle.file.specs.Reading.{table_length, table_in, read_of};
ghost use Rattle.file.specs.Writing.{write_refusal, write_of, written_on};

use body::{table_at, table_length};
use cells::{number_at, put_bytes, put_number};
use contents::is_contents;
use event::is_trace;
pub use event::{Event, event_at, is_formed, put_event};
use form::form_in;
pub use form::{Form, UnknownLength};
pub use head::{has_contents, put_head};
use order::Order;
pub use outline::{Outline, outline_of};
pub use refusal::Refusal;
use table::Table;

// What reading finds: the form, the order, how many streams there are, where the trace is and how many events it has.
#[derive(Clone, Copy, Debug, PartialEq, Eq)]
pub struct Layout {
    pub form: Form,
    pub order: Order,
    pub count: usize,
    pub start: usize,
    pub end: usize,
    pub events: usize,
}

// Reads any bytes. The order and every event are judged, and no number of the table but its count.
#[tactic(auto, using(crate::proofs::Outlines::unfit_is_refused))]
pub fn read(file: &[u8]) -> Result<Layout, Refusal>
    ensures { result ≡ read_of file.now }
{
    let outline = outline_of(file)?;
    let form = outline.form;
    let (start, end) = (outline.start, outline.end);
    let number = number_at(file, end, form.third() as usize);
    let order = Order::try_from(number)?;
    let trace = &file[start..end];
    if !is_contents(file, form, start, end) || !is_trace(trace) {
        return Err(Refusal::Layout);
    }
    Ok(Layout {
        form,
        order,
        count: outline.count,
        start,
        end,
        events: trace.len() / Event::SIZE,
    })
}

// The table of a file, from any bytes. Reading does not judge it; opening does.
#[tactic(auto, using(crate::proofs::Forms::start_low))]
pub fn table_of(file: &[u8]) -> Table
    ensures { result ≡ table_in file.now }
{
    let form = form_in(file);
    table_at(file, form.table_start())
}

// Writes the file of a form, an order, a table and a trace at the start of a buffer and answers how long it is, or refuses and leaves the buffer as it was.
// The four are arguments of their own, as the function has them that C calls.
pub fn write(
    table: Table,
    form: Form,
    order: Order,
    trace: &[u8],
    out: &mut [u8],
) -> Result<usize, Refusal>
    ensures value { result ≡ write_of form order table trace.now out.old }
    ensures out_after { out.new ≡ written_on form order table trace.now out.old }
{
    let length = checked_length(table, form, order, trace, out.len())?;
    let start = form.table_start() + table_length(table.count);
    let end = start + trace.len();
    put_head(out, form, table, trace.len() / Event::SIZE);
    put_bytes(out, start, trace);
    put_number(out, end, form.third() as usize, order.number());
    Ok(length)
}

// How long the file is, where it can be written and there is room for it.
#[tactic(auto, using(crate::proofs::Choices::choices, crate::proofs::Lengths::length_file, crate::proofs::Trace::trace_short), unfolding(crate::specs::Writing::write_refusal, crate::specs::Writing::is_writable))]
fn checked_length(
    table: Table,
    form: Form,
    order: Order,
    trace: &[u8],
    room: usize,
) -> Result<usize, Refusal>
    ensures { result ≡ answer_by (write_refusal form order table trace.now room) (length (file_of form order table trace.now)) }
{
    if Table::STREAMS_MAX < table.count {
        return Err(Refusal::Layout);
    }
    if !form.has_place(order) | !is_trace(trace) {
        return Err(Refusal::Layout);
    }
    let length = file_length(form, table.count, trace.len());
    if room < length {
        return Err(Refusal::Room);
    }
    Ok(length)
}

// How long the file of this form, this many streams and a trace of this length is.
fn file_length(form: Form, count: usize, trace: usize) -> usize
    requires { (count ≤ streams_max) × (trace ≤ event_size * events_max) }
    ensures { result ≡ table_start form + table_length count + trace + third_length form }
{
    form.table_start() + table_length(count) + trace + form.third() as usize
}
