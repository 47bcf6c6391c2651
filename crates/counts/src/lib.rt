// What is counted of a session file, and of a list of them: jobs, late ones, expired slots, disk time and the largest completion of each stream number.
#![tactic(auto)]

mod run;

ghost use Rattle.std.specs.Prelude.{◌≡◌};
ghost use Rattle.counts.specs.Counts.{sum_of, none, both, opened_file, filed_of, counts_in};
ghost use Rattle.file.specs.Reading.{events_in};

use order::Order;
use session::Session;
use table::Table;
use trace::Refusal;

// What is counted of one stream.
#[derive(Clone, Copy, Debug, Default, PartialEq, Eq)]
pub struct Tally {
    pub jobs: u64,
    pub late: u64,
    pub expired: u64,
    pub time: u64,
    pub largest: u64,
}

// A tally for each stream number; None where a sum has passed 64 bits, and no number stands.
#[derive(Clone, Copy, Debug, PartialEq, Eq)]
pub struct Counts {
    pub rows: Option<[Tally; Table::STREAMS_MAX]>,
}

// What is counted of a file: how many streams its table has, and their counts.
#[derive(Clone, Copy, Debug, PartialEq, Eq)]
pub struct Filed {
    pub count: usize,
    pub counts: Counts,
}

impl Tally {
    // Two tallies: counts and times added up, of the largest the largest. None where a sum passes 64 bits.
    fn and(self, other: Tally) -> Option<Tally>
        ensures { result ≡ sum_of self other }
    {
        Some(Tally {
            jobs: self.jobs.checked_add(other.jobs)?,
            late: self.late.checked_add(other.late)?,
            expired: self.expired.checked_add(other.expired)?,
            time: self.time.checked_add(other.time)?,
            largest: self.largest.max(other.largest),
        })
    }
}

impl Counts {
    // Of no files, or of no calls.
    #[tactic(auto, unfolding(table::specs::Fold::list_to))]
    pub fn none() -> Counts
        ensures { result ≡ none }
    {
        let rows = Some([Tally::default(); Table::STREAMS_MAX]);
        Counts { rows }
    }

    // Both, stream number by stream number.
    pub fn and(self, other: Counts) -> Counts
        ensures { result ≡ both self other }
    {
        let rows = self.sums(other);
        Counts { rows }
    }

    // The sums of the rows of both.
    fn sums(self, other: Counts) -> Option<[Tally; Table::STREAMS_MAX]>
        ensures { result ≡ (both self other).rows }
    {
        let a = self.rows?;
        let b = other.rows?;
        let mut rows = [Tally::default(); Table::STREAMS_MAX];
        for (i, row) in rows.iter_mut().enumerate() {
            *row = a[i].and(b[i])?;
        }
        Some(rows)
    }
}

// What is counted of a session file, which is read, opened and run; or what refuses it.
pub fn of_file(file: &[u8]) -> Result<Filed, Refusal>
    ensures { result ≡ filed_of file.now }
{
    let layout = file::read(file)?;
    let table = file::table_of(file);
    let trace = &file[layout.start..layout.end];
    of_opened(table, layout.order, trace, layout.events)
}

// What a file has for the totals: what is counted of it, or nothing where it is refused.
pub fn counts_in(filed: Result<Filed, Refusal>) -> Counts
    ensures { result ≡ counts_in filed }
{
    match filed {
        Ok(filed) => filed.counts,
        Err(_) => Counts::none(),
    }
}

// What is counted of a table, an order and a trace of so many events.
fn of_opened(table: Table, order: Order, trace: &[u8], events: usize) -> Result<Filed, Refusal>
    requires { events ≡ events_in trace.now }
    ensures { result ≡ opened_file table order trace.now }
{
    let opened = Session::open(table, order);
    opened.admission?;
    let counts = run::run(opened.session, trace, events);
    Ok(Filed {
        count: table.count,
        counts,
    })
}
