// Reads a file of bookings from standard input, and prints the reply to each line, and then the finished table as notes. Of a file with a line that may not stand where it stands it says so on standard error, and prints nothing.
#![tactic(auto)]

ghost use Rattle.std.specs.Prelude.{⊤, ◌≤◌, length, IfOk, MatchOption};

use booking::{Book, Receipt};
use file::Form;
use ledger::{Entry, Fault};
use order::Order;
use std::io;
use std::io::Read;
use table::Table;

// The buffer holds 65,536 bytes. Where a byte is left behind them, it is read.
fn main(rt: HostRuntime) -> io::Result<()> {
    let err = rt.stderr();
    let mut buffer = [0u8; given::FILE_ROOM];
    match read_bookings(&mut rt.stdin(), &mut buffer) {
        Ok(Some(len)) => answer(&rt, &err, &buffer[..len]),
        Ok(None) => err.print("book: more than 65536 bytes\n"),
        Err(_) => err.print("book: cannot read standard input\n"),
    }
}

// How many bytes the input has, if the buffer has room for them.
fn read_bookings(input: &mut impl Read, buffer: &mut [u8]) -> io::Result<Option<usize>>
    ensures { IfOk result (λ read. MatchOption read ⊤ (λ len. len ≤ length buffer.new)) }
{
    let len = given::read_full(input, buffer)?;
    let mut one = [0u8; 1];
    let more = input.read(&mut one)?;
    Ok(if more > 0 { None } else { Some(len) })
}

// The whole file is judged first.
fn answer(rt: &impl Print, err: &impl Print, file: &[u8]) -> io::Result<()> {
    match ledger::judge(file) {
        Ok(()) => print_notes(rt, print_replies(rt, file)?),
        Err(Fault::Unbegun) => {
            err.print("end: no table is begun; expected \"begin W H K LIMIT1 LIMIT2\"\n")
        }
        Err(Fault::Amiss { line, begun }) => say_amiss(err, file, line, begun),
    }
}

// Prints the reply to each line, and answers the table after the last. There is nothing behind a newline that is the last byte.
// No count goes up by one here: each line says where the next one starts.
fn print_replies(rt: &impl Print, file: &[u8]) -> io::Result<Book> {
    let mut book = Book::zero();
    let mut start: usize = 0;
    while start < file.len() {
        let end = ledger::line_end(file, start);
        book = print_reply(rt, book, &file[start..end])?;
        if end == file.len() {
            return Ok(book);
        }
        start = end + 1;
    }
    Ok(book)
}

// Takes a line, and prints the reply to it; a blank line has none.
fn print_reply(rt: &impl Print, book: Book, line: &[u8]) -> io::Result<Book> {
    let entry = ledger::entry_of(line);
    let taken = ledger::taken(book, entry);
    match entry {
        Entry::Begin { .. } | Entry::Call(_) => print_receipt(rt, taken.receipt)?,
        Entry::Blank | Entry::Wrong => {}
    }
    Ok(taken.book)
}

fn print_receipt(rt: &impl Print, receipt: Receipt) -> io::Result<()> {
    rt.write_all(listing::receipt(receipt.number, receipt.value).as_bytes())
}

// Prints the finished table, unless its beginning was refused.
fn print_notes(rt: &impl Print, book: Book) -> io::Result<()> {
    let finished = book.finish().finished;
    if finished.number == 0 {
        print_table(rt, Table::of(book.numbers(), finished.records))?;
    }
    Ok(())
}

// The notes of a table without events.
fn print_table(rt: &impl Print, table: Table) -> io::Result<()> {
    for i in 0..notes::head_lines(Form::Two) + table.count.min(Table::STREAMS_MAX) {
        let line = notes::line_at(Form::Two, Order::Nearest, table, &[], i);
        rt.write_all(notes::shown(line).as_bytes())?;
    }
    Ok(())
}

// Says which line is amiss, and what was expected.
fn say_amiss(err: &impl Print, file: &[u8], line: u64, begun: bool) -> io::Result<()> {
    print!(err; "line {line}: ")?;
    given::quote(err, line_of(file, line), false)?;
    err.print(" is no booking")?;
    if begun {
        err.print("; expected \"add DESK E P\" or \"withdraw DESK N\"\n")
    } else {
        err.print("; expected \"begin W H K LIMIT1 LIMIT2\"\n")
    }
}

// A line by its number, which is counted from 1.
fn line_of(file: &[u8], number: u64) -> &[u8] {
    let start = line_start(file, number);
    &file[start..ledger::line_end(file, start)]
}

// Where a line starts, which is counted from 1.
fn line_start(file: &[u8], line: u64) -> usize
    ensures { result ≤ length file.now }
{
    let mut start: usize = 0;
    for _ in 1..line {
        let end = ledger::line_end(file, start);
        if end == file.len() {
            return end;
        }
        start = end + 1;
    }
    start
}
