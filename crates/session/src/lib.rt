// A session: one disk, up to eight streams, and the calls that share it among them.
#![tactic(auto)]

mod arrivals;
mod completions;
mod dispatch;
mod effects;
mod horizons;
mod lent;
mod own_turns;
mod reports;
mod searches;
mod soundness;
mod turns;

ghost use Rattle.std.specs.Prelude.{◌≡◌, ◌≤◌, ◌<◌, Ok, Err};
ghost use Rattle.table.specs.Fold.{list_to};
ghost use Rattle.table.specs.Ranges.{streams_max};
ghost use Rattle.table.specs.Admission.{admission_of};
ghost use Rattle.table.specs.Margin.{margin_of};
ghost use Rattle.session.specs.Inner.{numbers_kept};
ghost use Rattle.session.specs.Opening.{opened_stream, fresh_session, zero_session, opening_of};

use calls::Reply;
use order::Order;
pub use searches::Outlook;
use stream::Stream;
use table::{Margin, Numbers, Refusal, Table};
use time::{Charge, Clock, Remainders};

// The first `count` of the eight streams are used. The margin is that of the table; the horizon is the smallest deadline, and the sum of all remainders is scaled by the span. `served` is the stream whose request is at the disk, counted from 1, with its place and its tag, or zeros: numbers, as the laws and the image that C gets speak of them. The tag stands with the other numbers of 32 bits, so that no byte is left between them.
#[derive(Clone, Copy)]
pub struct Session {
    pub order: Order,
    pub worst: u32,
    pub span: u32,
    pub padding: u32,
    pub tag: u32,
    pub count: usize,
    pub margin: Margin,
    pub horizon: Clock,
    pub remainders: Remainders,
    pub clock: Clock,
    pub head: u64,
    pub served: usize,
    pub place: u64,
    pub streams: [Stream; Table::STREAMS_MAX],
}

#[derive(Clone, Copy)]
pub struct Answer {
    pub session: Session,
    pub reply: Reply,
}

// A session that was opened, and the margin of its table; or the refusal, beside the all-zero session.
#[derive(Clone, Copy)]
pub struct Opened {
    pub session: Session,
    pub admission: Result<Margin, Refusal>,
}

impl Session {
    // Opens a session with a table and an order: a fresh one if the table is admitted, else the all-zero one beside the refusal.
    pub fn open(table: Table, order: Order) -> Opened
        ensures { result ≡ opening_of table order }
    {
        match table.admission() {
            Ok(margin) => admitted(table, margin, order),
            Err(refusal) => refused(refusal),
        }
    }

    // The all-zero session, which is not sound: it stands where none was made.
    pub fn zero() -> Session
        ensures { result ≡ zero_session }
    {
        let start = Clock::at(0);
        Session {
            order: Order::Nearest,
            worst: 0,
            span: 0,
            padding: 0,
            tag: 0,
            count: 0,
            margin: Margin::default(),
            horizon: start,
            remainders: Remainders::default(),
            clock: start,
            head: 0,
            served: 0,
            place: 0,
            streams: [Stream::fresh(0, 0, 0); Table::STREAMS_MAX],
        }
    }

    // W, H and k.
    pub(crate) fn numbers(&self) -> Numbers
        ensures { result ≡ numbers_kept self.now }
    {
        Numbers {
            worst: self.worst,
            span: self.span,
            padding: self.padding,
        }
    }
}

// What opening answers of a table that is admitted, and of one that is refused.
// Each is made in a function of its own, and its session before the struct that has it: in the arms of one match the session is cleared and copied once more, and an opening of one stream by value takes a third more instructions.
fn admitted(table: Table, margin: Margin, order: Order) -> Opened
    requires { (admission_of table ≡ 0) × (margin.0 ≡ margin_of table) }
    ensures { result ≡ record { session = fresh_session table order; admission = Ok margin } }
{
    let session = fresh(table, margin, order);
    let admission = Ok(margin);
    Opened { session, admission }
}

fn refused(refusal: Refusal) -> Opened
    ensures { result ≡ record { session = zero_session; admission = Err refusal } }
{
    let session = Session::zero();
    let admission = Err(refusal);
    Opened { session, admission }
}

// A session at the first release of every stream, with the margin of its table. Nothing is charged yet, so that the sum of remainders is the horizon times the shares, and the shares are the load less W for each of the shortest periods: no stream's share is divided for again.
fn fresh(t: Table, margin: Margin, order: Order) -> Session
    requires { (admission_of t ≡ 0) × (margin.0 ≡ margin_of t) }
    ensures { result ≡ fresh_session t order }
{
    let start = Clock::at(0);
    let mut session = Session {
        order,
        worst: t.worst,
        span: t.span,
        padding: t.padding,
        tag: 0,
        count: t.count,
        margin,
        horizon: start,
        remainders: Remainders::default(),
        clock: start,
        head: 0,
        served: 0,
        place: 0,
        streams: opened_streams(&t),
    };
    let h = session.soonest();
    let load = t.span as u64 - margin.left();
    let blocking = Charge::of(t.worst as u64);
    let sum = Remainders::of(h.micros() * load, blocking, t.span);
    session.horizon = h;
    session.remainders = sum;
    session
}

// The eight streams of a session that is opened with a table: those past its count stay all zeros.
// That the count is within eight is asked here and of each stream alone: `fresh`, the one caller, knows it from the admission.
// The table is lent here and to `opened_stream`, which reads a stream's two numbers where they stand: by `reservation` the rows are copied for each stream, and the index is tested again.
fn opened_streams(t: &Table) -> [Stream; Table::STREAMS_MAX]
    requires { t.now.count ≤ streams_max }
    ensures { result ≡ list_to (opened_stream t.now) streams_max }
{
    let unused = Stream::fresh(0, 0, 0);
    let mut streams = [unused; Table::STREAMS_MAX];
    for i in 0..t.count {
        streams[i] = opened_stream(t, i);
    }
    streams
}

// One that the table has.
fn opened_stream(t: &Table, i: usize) -> Stream
    requires { (i < t.now.count) × (t.now.count ≤ streams_max) }
    ensures { result ≡ opened_stream t.now i }
{
    let reserved = t.reserved[i];
    let budget = t.numbers().granted(reserved);
    Stream::fresh(reserved, t.period[i], budget)
}
