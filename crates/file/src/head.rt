// What stands before the trace of a file of so many streams and events. There is no file of more than eight streams, or of more than 4,000 events.
ghost use Rattle.std.specs.Prelude.{◌≡◌};
ghost use Rattle.file.specs.Reading.{has_contents};
ghost use Rattle.file.specs.Writing.{headed_on};

use crate::body::{put_table, table_length};
use crate::contents::{is_contents, put_contents};
use crate::event::Event;
use crate::form::Form;
use table::Table;

// Whether the contents table is that of such a file.
#[tactic(auto, using(crate::proofs::Choices::choices, crate::proofs::Forms::start_low), unfolding(crate::specs::Reading::has_contents))]
pub fn has_contents(file: &[u8], form: Form, count: usize, events: usize) -> bool
    ensures { result ≡ has_contents form file.now count events }
{
    if (Table::STREAMS_MAX < count) | (Event::MOST < events) {
        return false;
    }
    let start = form.table_start() + table_length(count);
    is_contents(file, form, start, start + Event::SIZE * events)
}

// Stores the contents table and the table body at the start of a buffer; where there is no such file, nothing.
#[tactic(auto, using(crate::proofs::Choices::choices, crate::proofs::Forms::start_low, crate::proofs::Heads::head_stored), unfolding(crate::specs::Writing::headed_on))]
pub fn put_head(out: &mut [u8], form: Form, table: Table, events: usize)
    ensures { out.new ≡ headed_on form table events out.old }
{
    if (Table::STREAMS_MAX < table.count) | (Event::MOST < events) {
        return;
    }
    put_contents(out, form, table_length(table.count), Event::SIZE * events);
    put_table(out, form.table_start(), table);
}
