// Reads notes from standard input, and writes their session file. Of notes that are wrong it says on standard error what is wrong where and what was expected, and writes nothing. A table without streams is told, too, and written.
#![tactic(auto)]

use notes::{Composed, Expected, Fault, Field, Flaw, Heard, Notes};
use std::io;
use std::io::Read;

// Each buffer holds more than the longest trace and the longest file.
fn main(rt: HostRuntime) -> io::Result<()> {
    let mut trace = [0u8; given::FILE_ROOM];
    let err = rt.stderr();
    let Ok(notes) = read_notes(&mut rt.stdin(), &mut trace) else {
        return err.print("compose: cannot read standard input\n");
    };
    let heard = notes.heard;
    let mut out = [0u8; given::FILE_ROOM];
    match notes::finish(notes, &mut trace, &mut out) {
        Ok(composed) => write_file(&rt, &err, composed, &out),
        Err(flaw) => say_flaw(&err, flaw, heard),
    }
}

// Writes the file, also where its table has no stream: it is a session file, and opening says what it lacks.
fn write_file(rt: &impl Print, err: &impl Print, composed: Composed, out: &[u8]) -> io::Result<()> {
    match composed {
        Composed::Written(len) => write_start(rt, len, out),
        Composed::Streamless { len, event } => {
            write_start(rt, len, out)?;
            say_streamless(err, event)
        }
    }
}

fn write_start(rt: &impl Print, len: usize, out: &[u8]) -> io::Result<()> {
    // the file ends within the buffer
    rt.write_all(&out[..len.min(out.len())])
}

fn say_streamless(err: &impl Print, event: Option<u64>) -> io::Result<()> {
    match event {
        Some(line) => print!(err; "line {line}: no stream before the first event")?,
        None => err.print("end: no stream")?,
    }
    err.print("; the file is written, and opening refuses a table without streams by 1\n")
}

// Says what is wrong; what was heard of the last line is quoted.
fn say_flaw(err: &impl Print, flaw: Flaw, heard: Heard) -> io::Result<()> {
    match flaw {
        Flaw::Wrong {
            line,
            fault,
            expected,
        } => {
            print!(err; "line {line}: ")?;
            say_fault(err, fault, heard)?;
            say_expected(err, expected)
        }
        Flaw::Unfinished(expected) => {
            err.print("end: the notes end too early")?;
            say_expected(err, expected)
        }
        Flaw::Refused(refusal) => {
            let number = refusal.number();
            print!(err; "refused {number}\n")
        }
    }
}

fn say_fault(err: &impl Print, fault: Fault, heard: Heard) -> io::Result<()> {
    let word = heard.word;
    let number = heard.number;
    match fault {
        Fault::Return => err.print("a carriage return within the line"),
        Fault::Mark => {
            err.print("a byte order mark, the bytes EF BB BF, which notes do not have")
        }
        Fault::Word => say_of(err, word, " is not a word of notes"),
        Fault::Numbers(takes) => say_count(err, word, takes),
        Fault::OneWord => say_of(err, word, " takes one word"),
        Fault::NoNumber => say_of(err, number, " is not a number"),
        Fault::TooLarge(bits) => say_limit(err, number, bits),
        Fault::NoOrder => say_of(err, number, " is not an order"),
        Fault::Misplaced => say_of(err, word, " may not stand here"),
        Fault::NinthStream => err.print("a ninth stream, and a table has at most 8"),
        Fault::LateEvent => err.print("an event after 4000 of them"),
    }
}

fn say_count(err: &impl Print, word: Field, takes: u64) -> io::Result<()> {
    let words = match takes {
        0 => " takes no number",
        1 => " takes one number",
        2 => " takes two numbers",
        _ => " takes two or three numbers",
    };
    say_of(err, word, words)
}

fn say_limit(err: &impl Print, number: Field, bits: u64) -> io::Result<()> {
    let words = match bits {
        8 => " is too large, and has to be below 256",
        32 => " is too large, and has to be below 4294967296",
        _ => " is too large, and has to be below 18446744073709551616",
    };
    say_of(err, number, words)
}

// Quotes a field, and says something of it.
fn say_of(err: &impl Print, field: Field, words: &str) -> io::Result<()> {
    given::quote(err, field.start(), field.is_cut())?;
    err.print(words)
}

fn say_expected(err: &impl Print, expected: Expected) -> io::Result<()> {
    err.print(match expected {
        Expected::Worst => "; expected \"worst N\", a number below 4294967296\n",
        Expected::Span => "; expected \"span N\", a number below 4294967296\n",
        Expected::Padding => "; expected \"padding N\", a number below 4294967296\n",
        Expected::OrderStreamOrEvent => {
            "; expected \"order nearest\", \"order sweep\", \"stream E P\" or an event\n"
        }
        Expected::StreamOrEvent => "; expected \"stream E P\" or an event\n",
        Expected::Event => "; expected an event\n",
        Expected::NoMore => "; expected no more than 4000 events\n",
    })
}

// A proved loop has to end, and nothing says that an input does. So the loop counts its turns, up to a number that no run comes to. It stops where there is no more to read.
fn read_notes(from: &mut impl Read, trace: &mut [u8]) -> io::Result<Notes> {
    let mut notes = Notes::start();
    let mut piece = [0u8; given::NAME_ROOM];
    for _ in 0..u64::MAX {
        let n = from.read(&mut piece)?;
        if n == 0 {
            break;
        }
        notes = notes::feed(notes, &piece[..n], trace);
    }
    Ok(notes)
}
