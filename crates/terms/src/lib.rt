// What a card may say of a table: the terms of each stream and how far it could change alone, and whether the table is admitted, or which number of it is beyond which limit.
#![tactic(auto)]

ghost use Rattle.std.specs.Prelude.{◌≡◌, ◌+◌, ◌/◌, MatchOption};
ghost use Rattle.table.specs.Refusal.{refusal_number};
ghost use Rattle.table.specs.Admission.{numbers_refusal, stream_refusal_at, streams_refusal};
ghost use Rattle.table.specs.Margin.{margin_of};
ghost use Rattle.terms.specs.Terms.{terms_of, change_of, hundredths_of, beyond, numbers_finding, period_finding, budget_finding, stream_finding, refused_stream, load_verdict, verdict_of, as_said};

use table::{Margin, Numbers, Padding, Refusal, Reservation, Table};

// The terms of a stream: the padding that k stands for, the granted budget, the disk time that each period gets more than, and the least number of requests.
#[derive(Clone, Copy, Debug, PartialEq, Eq)]
pub struct Terms {
    pub padding: u32,
    pub granted: u64,
    pub above: u64,
    pub requests: u64,
}

// How far the reserved time of one stream could change alone, while the others stay as they are: it may grow by so much at most; it has to shrink by so much at least; or it alone is not enough.
#[derive(Clone, Copy, Debug, PartialEq, Eq)]
pub enum Change {
    Grow(u64),
    Shrink(u64),
    NotAlone,
}

// A number of the table, or one that is worked out from it, and the limit that it is held to.
#[derive(Clone, Copy, Debug, PartialEq, Eq)]
pub struct Finding {
    pub value: u64,
    pub limit: u64,
}

// What opening says of a table: what refuses it, the stream that it speaks of, counted from 1, and what was found.
#[derive(Clone, Copy, Debug, PartialEq, Eq)]
pub struct Verdict {
    pub refusal: Option<Refusal>,
    pub stream: Option<u64>,
    pub finding: Finding,
}

impl Terms {
    // The terms of a stream by W, k and its reserved time.
    pub fn of(numbers: Numbers, reserved: u32) -> Terms
        ensures { result ≡ terms_of numbers.worst numbers.padding reserved }
    {
        let worst = numbers.worst as u64;
        let granted = numbers.granted(reserved);
        Terms {
            padding: Padding::of(numbers.padding).0,
            granted,
            above: granted - worst,
            requests: quotient(granted, worst),
        }
    }
}

impl Change {
    // By the margin of the table, W, H, k, and the reserved time and the period of the stream.
    pub fn of(margin: Margin, numbers: Numbers, stream: Reservation) -> Change
        ensures { result ≡ change_of margin.0 numbers.worst numbers.span numbers.padding stream.reserved stream.period }
    {
        let period = stream.period as u64;
        let times = quotient(numbers.span as u64, period);
        let over = margin.over();
        if over == 0 {
            let by_load = quotient(margin.left(), times);
            let by_period = period.saturating_sub(numbers.granted(stream.reserved));
            return Change::Grow(by_load.min(by_period));
        }
        let by = quotient(over - 1, times) + 1;
        if by < stream.reserved as u64 {
            Change::Shrink(by)
        } else {
            Change::NotAlone
        }
    }
}

// A quotient, rounded down; 0 where nothing is divided by.
fn quotient(a: u64, b: u64) -> u64
    ensures { result ≡ a / b }
{
    a.checked_div(b).unwrap_or(0)
}

// A part of a whole in hundredths of a percent.
pub fn hundredths(part: u64, whole: u32) -> u64
    ensures { result ≡ hundredths_of part whole }
{
    if part < whole as u64 {
        return part * 10_000 / whole as u64;
    }
    10_000
}

impl Verdict {
    // What opening says of a table, with what was found.
    pub fn on(t: Table) -> Verdict
        ensures { result ≡ as_said (margin_of t) (verdict_of t) }
    {
        if let Err(refusal) = table::numbers_refusal(t) {
            return Verdict {
                refusal: Some(refusal),
                stream: None,
                finding: numbers_finding(t, refusal),
            };
        }
        match refused_stream(t) {
            Some((i, refusal)) => Verdict {
                refusal: Some(refusal),
                stream: Some(i as u64 + 1),
                finding: stream_finding(refusal, t.numbers(), t.reservation(i)),
            },
            None => load_verdict(t),
        }
    }
}

// Which of the table's numbers 1 to 4 speak of.
fn numbers_finding(t: Table, refusal: Refusal) -> Finding
    ensures { result ≡ numbers_finding t (refusal_number refusal) }
{
    match refusal {
        Refusal::Streams => beyond(1, Table::STREAMS_MAX as u64, t.count as u64),
        Refusal::Worst => beyond(
            Table::WORST_MIN as u64,
            Table::WORST_MAX as u64,
            t.worst as u64,
        ),
        Refusal::Span => beyond(
            Table::SPAN_MIN as u64,
            Table::SPAN_MAX as u64,
            t.span as u64,
        ),
        _ => beyond(0, Padding::MAX as u64, t.padding as u64),
    }
}

// A number outside its range, and the end of the range that it is beyond.
fn beyond(low: u64, high: u64, n: u64) -> Finding
    ensures { result ≡ beyond low high n }
{
    Finding {
        value: n,
        limit: if n < low { low } else { high },
    }
}

// The first stream that has a refusal of its own, counted from 0, with that refusal. `table` asks the same streams for the refusal alone: one search for both would be public there, with an answer of its own in its specs.
fn refused_stream(t: Table) -> Option<(usize, Refusal)>
    ensures { MatchOption result (refused_stream t ≡ 0) (λ found. (refused_stream t ≡ found.0 + 1) × (refusal_number found.1 ≡ stream_refusal_at t found.0)) }
{
    let numbers = t.numbers();
    for i in 0..t.count {
        if let Err(refusal) = numbers.stream_refusal(t.reservation(i)) {
            return Some((i, refusal));
        }
    }
    None
}

// What was found of a stream that is refused.
fn stream_finding(refusal: Refusal, numbers: Numbers, stream: Reservation) -> Finding
    ensures { result ≡ stream_finding (refusal_number refusal) numbers.worst numbers.span numbers.padding stream.reserved stream.period }
{
    match refusal {
        Refusal::Period => period_finding(numbers.span, stream.period),
        _ => budget_finding(numbers, stream),
    }
}

// The period, or what it leaves of the span.
fn period_finding(span: u32, p: u32) -> Finding
    ensures { result ≡ period_finding span p }
{
    if (p < Table::PERIOD_MIN) | (Table::PERIOD_MAX < p) {
        return beyond(Table::PERIOD_MIN as u64, Table::PERIOD_MAX as u64, p as u64);
    }
    Finding {
        value: (span % p) as u64,
        limit: 0,
    }
}

// The reserved time, or the granted budget beside the period.
fn budget_finding(numbers: Numbers, stream: Reservation) -> Finding
    ensures { result ≡ budget_finding numbers.worst numbers.padding stream.reserved stream.period }
{
    if stream.reserved == 0 {
        return Finding { value: 0, limit: 1 };
    }
    Finding {
        value: numbers.granted(stream.reserved),
        limit: stream.period as u64,
    }
}

// The load beside the span.
fn load_verdict(t: Table) -> Verdict
    requires { (numbers_refusal t ≡ 0) × (streams_refusal t ≡ 0) }
    ensures { result ≡ as_said (margin_of t) (load_verdict t) }
{
    Verdict {
        refusal: t.admission().err(),
        stream: None,
        finding: Finding {
            value: t.load(),
            limit: t.span as u64,
        },
    }
}
