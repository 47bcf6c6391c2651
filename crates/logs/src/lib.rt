// The listing of another dispatcher, followed line by line beside the session file that it is of.
#![tactic(auto)]

mod candidates;
mod choices;

ghost use Rattle.std.specs.Prelude.{◌≡◌, [], ◌≤◌, length, get_or};
ghost use Rattle.logs.specs.Following.{starting, opened_at, begun, trace_of, awaited, with_line, fed_by, is_whole, checked_by, report_of};

use file::Event;
use listing::Text;
use order::Order;
use session::Session;
use table::Table;
use trace::Refusal;

// How far a listing was followed: the session after the lines so far; what refuses the file; the number of the line that is due, which stands where one did not follow too; and whether one did not.
// The session and the line that is due stand still after a line that did not follow, and `report` reads both; so `failed` is a flag beside them.
#[derive(Clone, Copy)]
pub struct Follower {
    session: Session,
    refusal: Option<Refusal>,
    due: usize,
    failed: bool,
}

// A follower, and how many bytes of a piece are left behind its last line.
#[derive(Clone, Copy)]
pub struct Fed {
    pub follower: Follower,
    pub left: usize,
}

// A line that is due: the first, or that of an event, counted from 0.
#[derive(Clone, Copy, Debug, PartialEq, Eq)]
pub(crate) enum Awaited {
    First,
    Event(usize),
}

impl Follower {
    // Before the first line of a listing, of a session file.
    pub fn begin(file: &[u8]) -> Follower
        ensures { result ≡ begun file.now }
    {
        match file::read(file) {
            Ok(layout) => Follower::opened(file::table_of(file), layout.order),
            Err(refusal) => Follower::starting(Session::zero(), Some(Refusal::File(refusal))),
        }
    }

    fn opened(table: Table, order: Order) -> Follower
        ensures { result ≡ opened_at table order }
    {
        let opened = Session::open(table, order);
        match opened.admission {
            Ok(_) => Follower::starting(opened.session, None),
            Err(refusal) => Follower::starting(opened.session, Some(Refusal::Table(refusal))),
        }
    }

    // Before the first line, of a session and of what refuses the file.
    fn starting(session: Session, refusal: Option<Refusal>) -> Follower
        ensures { result ≡ starting session refusal }
    {
        Follower {
            session,
            refusal,
            due: 1,
            failed: false,
        }
    }

    // Takes a piece of a listing, line by line. What is left behind its last line comes again, before the next piece.
    pub fn feed(self, file: &[u8], piece: &[u8]) -> Fed
        ensures value { result ≡ fed_by self (trace_of file.now) piece.now }
        ensures left_in_bounds { result.left ≤ length piece.now }
    {
        let trace = trace_of(file);
        let mut follower = self;
        let mut start: usize = 0;
        for (i, byte) in piece.iter().enumerate() {
            if *byte == b'\n' {
                follower = follower.with_line(trace, &piece[start..i + 1]);
                start = i + 1;
            }
        }
        Fed {
            follower,
            left: piece.len() - start,
        }
    }

    // Takes a line. After one that does not follow nothing more is looked at.
    fn with_line(self, trace: &[u8], line: &[u8]) -> Follower
        ensures { result ≡ with_line self trace.now line.now }
    {
        if self.failed {
            return self;
        }
        match self.search(trace, line) {
            Some(session) => Follower {
                session,
                due: self.due + 1,
                ..self
            },
            None => Follower {
                failed: true,
                ..self
            },
        }
    }

    // Which line is due, or none: the header is line 1, and that of the first event line 2.
    pub(crate) fn awaited(self, trace: &[u8]) -> Option<Awaited>
        ensures { result ≡ awaited self trace.now }
    {
        if self.due <= 1 {
            return Some(Awaited::First);
        }
        if self.refusal.is_none() & (self.due - 1 <= trace.len() / Event::SIZE) {
            return Some(Awaited::Event(self.due - 2));
        }
        None
    }

    // Whether a line did not follow, so that nothing more is looked at.
    pub fn has_failed(self) -> bool
        ensures { result ≡ self.failed }
    {
        self.failed
    }

    // Line k of what is said of a listing, counted from 0, where these bytes are left behind its last line: `accepted`; or the number of the line that does not follow, and then each that could have stood there. There is nothing in a line past the last.
    pub fn report(self, file: &[u8], left: &[u8], k: usize) -> Text
        ensures { result ≡ get_or (report_of (checked_by self (trace_of file.now) left.now)) k [] }
    {
        let trace = trace_of(file);
        if self.is_whole(trace, left) {
            return choices::only(listing::accepted(), k);
        }
        if k == 0 {
            return listing::place(self.due as u64);
        }
        self.candidate(trace, k - 1)
    }

    // Whether nothing failed, nothing is left, and no line is due.
    fn is_whole(self, trace: &[u8], left: &[u8]) -> bool
        ensures { result ≡ is_whole self trace.now left.now }
    {
        !self.failed & left.is_empty() & self.awaited(trace).is_none()
    }
}

// The events of a file that is read; none of one that is refused.
fn trace_of(file: &[u8]) -> &[u8]
    ensures { result.now ≡ trace_of file.now }
{
    match file::read(file) {
        Ok(layout) => &file[layout.start..layout.end],
        Err(_) => &file[..0],
    }
}
