// Reads a session file from standard input, and prints what a card may say of its table, or what refuses it. The trace is not run.
#![tactic(auto)]

use std::fmt::{InlineText, Write};
use std::{fmt, io};
use table::{Margin, Numbers, Refusal, Reservation, Table};
use terms::{Change, Finding, Terms, Verdict};

// A number as a card shows it: its digits in groups of three.
#[derive(Clone, Copy)]
struct Grouped(u64);

// A number of 64 bits has 20 digits at most, and then six commas.
impl fmt::Display for Grouped {
    fn fmt<W: fmt::Write>(&self, f: &mut fmt::Formatter<W>) -> fmt::Result {
        let number = InlineText::<20>::of(self.0);
        let digits = number.as_str().as_bytes();
        let mut text = InlineText::<26>::new();
        for (i, digit) in digits.iter().enumerate() {
            if i != 0 && (digits.len() - i) % 3 == 0 {
                text.write_char(',')?;
            }
            text.write_char(*digit as char)?;
        }
        f.pad(text.as_str())
    }
}

// Of an input that cannot be read it says so, and prints nothing.
fn main(rt: HostRuntime) -> io::Result<()> {
    let mut buffer = [0u8; given::FILE_ROOM];
    let Ok(len) = given::read_full(&mut rt.stdin(), &mut buffer) else {
        return rt.eprint("card: cannot read standard input\n");
    };
    let file = &buffer[..len];
    match file::read(file) {
        Ok(_) => print_card(&rt, file::table_of(file)),
        Err(_) => rt.print("refused 16: this is not laid out as a session file\n"),
    }
}

// The verdict, with the margin where the load is judged; then what was reserved and is granted, where the table's own numbers are in order; and the promise, where the table is admitted.
fn print_card(rt: &impl Print, table: Table) -> io::Result<()> {
    let verdict = Verdict::on(table);
    match table.admission() {
        Ok(margin) => {
            print_load(rt, verdict.finding)?;
            print_margin(rt, margin)?;
            print_streams(rt, table, Some(margin))?;
            print_promises(rt, table)
        }
        Err(refusal) => {
            print_refusal(rt, table, verdict, refusal)?;
            match refusal {
                Refusal::Load(margin) => {
                    print_margin(rt, margin)?;
                    print_streams(rt, table, Some(margin))
                }
                Refusal::Period | Refusal::Budget => {
                    rt.print("\n")?;
                    print_streams(rt, table, None)
                }
                _ => rt.print("\n"),
            }
        }
    }
}

fn print_load(rt: &impl Print, found: Finding) -> io::Result<()> {
    let load = Grouped(found.value);
    let span = Grouped(found.limit);
    print!(rt; "admitted: the load is {load} of the span {span}")
}

// What is left of the span, or the amount over it with a sign.
fn print_margin(rt: &impl Print, margin: Margin) -> io::Result<()> {
    let left = Grouped(margin.left());
    let over = Grouped(margin.over());
    if margin.over() == 0 {
        print!(rt; ", and the margin is {left}\n")
    } else {
        print!(rt; ", and the margin is -{over}\n")
    }
}

fn print_refusal(
    rt: &impl Print,
    table: Table,
    verdict: Verdict,
    refusal: Refusal,
) -> io::Result<()> {
    let number = refusal.number();
    print!(rt; "refused {number}: ")?;
    if let Some(stream) = verdict.stream {
        print!(rt; "stream {stream}: ")?;
    }
    let found = verdict.finding;
    let value = Grouped(found.value);
    if (refusal == Refusal::Period) & (found.limit == 0) {
        let span = Grouped(table.span as u64);
        return print!(rt;
            "the period does not divide the span {span}, of which {value} are left over"
        );
    }
    let what = what(refusal, found);
    let apart = Grouped(found.value.abs_diff(found.limit));
    let side = side(refusal, found);
    let limit = Grouped(found.limit);
    print!(rt; "{what} is {value}, {apart} {side}, {limit}")
}

// What is beyond a limit.
fn what(refusal: Refusal, found: Finding) -> &'static str {
    match refusal {
        Refusal::Streams => "the number of streams",
        Refusal::Worst => "the worst-case request time W",
        Refusal::Span => "the span H",
        Refusal::Padding => "the padding k",
        Refusal::Period => "the period",
        Refusal::Budget if found.value < found.limit => "the reserved time",
        Refusal::Budget => "the granted budget",
        Refusal::Load(_) => "the load",
    }
}

// Beyond which limit it is.
fn side(refusal: Refusal, found: Finding) -> &'static str {
    if found.value < found.limit {
        return "below the least";
    }
    match refusal {
        Refusal::Budget => "above the period",
        Refusal::Load(_) => "above the span",
        _ => "above the most",
    }
}

// A row for each stream; the last column is there where the load is judged, and there is a margin.
fn print_streams(rt: &impl Print, table: Table, margin: Option<Margin>) -> io::Result<()> {
    let worst = Grouped(table.worst as u64);
    print!(rt; "\nworst-case request time W {worst}; all times in microseconds\n\n")?;
    rt.print("stream       reserved         period  padding        granted  of the disk")?;
    if let Some(margin) = margin {
        rt.print(change_of(margin))?;
    }
    rt.print("\n")?;
    for i in 0..table.count.min(Table::STREAMS_MAX) {
        print_stream(rt, i + 1, table.numbers(), table.reservation(i), margin)?;
    }
    if let Some(margin) = margin {
        rt.print(change_meant(margin))?;
    }
    Ok(())
}

// The row of a stream.
fn print_stream(
    rt: &impl Print,
    number: usize,
    numbers: Numbers,
    stream: Reservation,
    margin: Option<Margin>,
) -> io::Result<()> {
    print!(rt; "{number:>6}")?;
    print_terms(rt, Terms::of(numbers, stream.reserved), stream)?;
    if let Some(margin) = margin {
        print_change(rt, Change::of(margin, numbers, stream))?;
    }
    rt.print("\n")
}

// What the last column tells of each stream.
fn change_of(margin: Margin) -> &'static str {
    if margin.over() == 0 {
        "     may grow by"
    } else {
        "  must shrink by"
    }
}

fn change_meant(margin: Margin) -> &'static str {
    if margin.over() == 0 {
        "\none stream may grow by that much reserved time, while the others stay as they are\n"
    } else {
        "\nit is enough that one stream shrinks by that much reserved time, while the others stay as they are;\nnot alone: nothing would be left of it\n"
    }
}

fn print_change(rt: &impl Print, change: Change) -> io::Result<()> {
    match change {
        Change::Grow(by) | Change::Shrink(by) => {
            let by = Grouped(by);
            print!(rt; "{by:>16}")
        }
        Change::NotAlone => rt.print("       not alone"),
    }
}

fn print_terms(rt: &impl Print, terms: Terms, stream: Reservation) -> io::Result<()> {
    let reserved = Grouped(stream.reserved as u64);
    let period = Grouped(stream.period as u64);
    let padding = Grouped(terms.padding as u64);
    let granted = Grouped(terms.granted);
    print!(rt; "{reserved:>15}{period:>15}{padding:>9}{granted:>15}")?;
    if (stream.period as u64) < terms.granted {
        return rt.print("  above 100 %");
    }
    let share = terms::hundredths(terms.granted, stream.period);
    let percent = share / 100;
    let hundredths = share % 100;
    print!(rt; "{percent:>8}.{hundredths:02} %")
}

fn print_promises(rt: &impl Print, table: Table) -> io::Result<()> {
    rt.print("\nthe card may say, of a channel that always has a request waiting:\n\n")?;
    for i in 0..table.count.min(Table::STREAMS_MAX) {
        let stream = table.reservation(i);
        let terms = Terms::of(table.numbers(), stream.reserved);
        let number = i + 1;
        print!(rt; "{number:>6}")?;
        print_promise(rt, terms, stream.period)?;
    }
    let worst = Grouped(table.worst as u64);
    print!(rt;
        "\nas long as no request takes longer than {worst} and no clock report comes after the latest safe moment\n"
    )
}

fn print_promise(rt: &impl Print, terms: Terms, period: u32) -> io::Result<()> {
    let period = Grouped(period as u64);
    let above = Grouped(terms.above);
    let requests = Grouped(terms.requests);
    print!(rt;
        ": in every period of {period} more than {above} of disk time, and at least {requests}"
    )?;
    if terms.requests == 1 {
        rt.print(" request\n")
    } else {
        rt.print(" requests\n")
    }
}
