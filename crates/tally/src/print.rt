// What is printed, and what is said on standard error.
use counts::{Counts, Tally};
use std::io;
use table::Table;

// Prints the totals, or says that there are none.
pub(crate) fn print_totals(rt: &impl Print, err: &impl Print, totals: Counts) -> io::Result<()> {
    let Some(rows) = totals.rows else {
        return err.print("tally: a total passes 64 bits\n");
    };
    rt.write_all(listing::total().as_bytes())?;
    print_rows(rt, &rows)
}

// Prints the header, and the line of each of the first streams. Where a sum has passed 64 bits there is no number to print.
pub(crate) fn print_counts(rt: &impl Print, counts: Counts, count: usize) -> io::Result<()> {
    if let Some(rows) = counts.rows {
        print_rows(rt, &rows[..count.min(Table::STREAMS_MAX)])?;
    }
    Ok(())
}

// Prints the header, and a line for each row.
fn print_rows(rt: &impl Print, rows: &[Tally]) -> io::Result<()> {
    rt.write_all(listing::tally_header().as_bytes())?;
    for (stream, row) in (1..).zip(rows) {
        print_row(rt, stream, *row)?;
    }
    Ok(())
}

fn print_row(rt: &impl Print, stream: u64, row: Tally) -> io::Result<()> {
    let line = listing::tally_line(
        stream,
        row.jobs,
        row.late,
        row.expired,
        row.time,
        row.largest,
    );
    rt.write_all(line.as_bytes())
}
