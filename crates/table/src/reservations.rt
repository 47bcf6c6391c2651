// A table that comes as a lent slice of reservation records.
ghost use Rattle.std.specs.Prelude.{◌≡◌};
ghost use Rattle.table.specs.Reservations.{record_at, records_of, table_of_records};

use crate::{Numbers, Table};
use std::array;

// What is booked for one stream.
#[repr(C)]
#[derive(Clone, Copy, Debug, Default, PartialEq, Eq)]
pub struct Reservation {
    pub reserved: u32,
    pub period: u32,
}

// What is taken of a lent slice: its first eight records, zeros past its end, and its true length: a count beside fixed cells, as C has them.
#[repr(C)]
#[derive(Clone, Copy, Debug, Default, PartialEq, Eq)]
pub struct Records {
    pub rows: [Reservation; Table::STREAMS_MAX],
    pub count: usize,
}

// The record of a stream, counted from 0; zeros past the end.
pub fn record_at(table: &[Reservation], i: usize) -> Reservation
    ensures { result ≡ record_at table.now i }
{
    if i < table.len() {
        table[i]
    } else {
        Reservation::default()
    }
}

// Takes the records out of a slice of any length.
pub fn take_in(table: &[Reservation]) -> Records
    ensures { result ≡ records_of table.now }
{
    Records {
        rows: array::from_fn(|i| record_at(table, i)),
        count: table.len(),
    }
}

impl Table {
    // The table of three numbers and of records that were taken in.
    pub fn of(numbers: Numbers, records: Records) -> Table
        ensures { result ≡ table_of_records numbers.worst numbers.span numbers.padding records.rows records.count }
    {
        Table {
            worst: numbers.worst,
            span: numbers.span,
            padding: numbers.padding,
            count: records.count,
            reserved: records.rows.map(|row| row.reserved),
            period: records.rows.map(|row| row.period),
        }
    }
}
