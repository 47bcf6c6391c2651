// The table body.
ghost use Rattle.std.specs.Prelude.{◌≡◌, ◌+◌, ◌*◌, ◌≤◌, ◌<◌, ltb};
ghost use Rattle.std.proofs.lemmas.List.Edits.{sets};
ghost use Rattle.table.specs.Fold.{if};
ghost use Rattle.table.specs.Ranges.{streams_max};
ghost use Rattle.cells.specs.Cells.{number_at};
ghost use Rattle.file.specs.File.{table_start_max, stream_cells, table_body};
ghost use Rattle.file.specs.Reading.{table_length, column, table_at};

use crate::word::{put_word, word_at};
use cells::put_number;
use std::array;
use table::Table;

// Where in a table body the streams start, and where the period of the first is; and how many bytes e and p of a stream have.
const STREAMS_AT: usize = 16;

const PERIODS_AT: usize = STREAMS_AT + 4;

const STREAM_SIZE: usize = 8;

// How long the table body of this many streams is.
pub(crate) fn table_length(count: usize) -> usize
    requires { count ≤ streams_max }
    ensures { result ≡ table_length count }
{
    STREAMS_AT + STREAM_SIZE * count
}

// The table whose body starts at an index.
#[tactic(auto, unfolding(crate::specs::Reading::table_at))]
pub(crate) fn table_at(file: &[u8], at: usize) -> Table
    requires { at ≤ table_start_max }
    ensures { result ≡ table_at file.now at }
{
    let count = word_at(file, at + 12) as usize;
    let reserved = column_at(file, at + STREAMS_AT, count);
    let period = column_at(file, at + PERIODS_AT, count);
    Table {
        worst: word_at(file, at),
        span: word_at(file, at + 4),
        padding: word_at(file, at + 8),
        count,
        reserved,
        period,
    }
}

// A number of each stream, eight bytes apart, and 0 past the count.
fn column_at(file: &[u8], from: usize, count: usize) -> [u32; Table::STREAMS_MAX]
    requires { from ≤ table_start_max + 20 }
    ensures { result ≡ column (λ i. number_at 4 file.now (from + 8 * i)) count }
{
    array::from_fn(|i| used_at(file, from, count, i))
}

// The number of the stream at i, or 0 past the count.
#[tactic(auto, using(crate::proofs::Choices::choices))]
fn used_at(file: &[u8], from: usize, count: usize, i: usize) -> u32
    requires { (from ≤ table_start_max + 20) × (i < streams_max) }
    ensures { result ≡ if (ltb i count) (number_at 4 file.now (from + 8 * i)) 0 }
{
    if i < count {
        word_at(file, from + STREAM_SIZE * i)
    } else {
        0
    }
}

// Stores a table body from an index on.
#[tactic(auto, using(crate::proofs::Stores::table_stored))]
pub(crate) fn put_table(out: &mut [u8], at: usize, table: Table)
    requires { (at ≤ table_start_max) × (table.count ≤ streams_max) }
    ensures { out.new ≡ sets out.old at (table_body table) }
{
    put_word(out, at, table.worst);
    put_word(out, at + 4, table.span);
    put_word(out, at + 8, table.padding);
    put_number(out, at + 12, 4, table.count as u64);
    put_streams(out, at + STREAMS_AT, table);
}

// Stores e and p of each stream from an index on.
#[tactic(auto, using(crate::proofs::Stores::stream_stored), unfolding(crate::specs::File::stream_cells))]
fn put_streams(out: &mut [u8], at: usize, table: Table)
    requires { (at ≤ table_start_max + 16) × (table.count ≤ streams_max) }
    ensures { out.new ≡ sets out.old at (stream_cells table table.count) }
{
    for i in 0..table.count {
        let cell = at + STREAM_SIZE * i;
        put_word(out, cell, table.reserved[i]);
        put_word(out, cell + 4, table.period[i]);
    }
}
