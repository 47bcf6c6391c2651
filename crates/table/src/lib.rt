// Reservation tables: their numbers, the ranges of these, and which are admitted.
#![tactic(auto)]

mod closing;
mod groups;
mod margin;
mod numbers;
mod parts;
mod refusal;
mod reservations;
mod signed;

ghost use Rattle.std.specs.Prelude.{◌≡◌};
ghost use Rattle.table.specs.Admission.{numbers_in, reservation_at, judged_shares, judged_load};
ghost use Rattle.table.specs.Margin.{answer_of};

pub use closing::closed_up;
pub use margin::Margin;
pub use numbers::{Numbers, Padding};
use parts::Judged;
pub use parts::numbers_refusal;
pub use refusal::Refusal;
pub use reservations::{Records, Reservation, record_at, take_in};
pub use signed::{above_zero, below_zero};

// The numbers of a table, as booked. Of its eight places for streams the first `count` are used: a count beside fixed rows, as C has them.
#[repr(C)]
#[derive(Clone, Copy, Debug, Default, PartialEq, Eq)]
pub struct Table {
    pub worst: u32,
    pub span: u32,
    pub padding: u32,
    pub count: usize,
    pub reserved: [u32; Table::STREAMS_MAX],
    pub period: [u32; Table::STREAMS_MAX],
}

impl Table {
    pub const STREAMS_MAX: usize = 8;

    pub const WORST_MIN: u32 = 1;

    pub const WORST_MAX: u32 = 1_000_000;

    pub const SPAN_MIN: u32 = 1_000;

    pub const SPAN_MAX: u32 = 600_000_000;

    pub const PERIOD_MIN: u32 = 1_000;

    pub const PERIOD_MAX: u32 = 60_000_000;

    // The margin of a table that is admitted, or the first refusal that applies.
    pub fn admission(self) -> Result<Margin, Refusal>
        ensures { result ≡ answer_of self }
    {
        let judged = Judged::of(self)?;
        let load = judged.load();
        let margin = Margin::of(self.span, load);
        if (self.span as u64) < load {
            return Err(Refusal::Load(margin));
        }
        Ok(margin)
    }

    // The sum of the streams' shares, of a table that 1 to 6 do not refuse; 0 of another.
    pub fn shares(self) -> u64
        ensures { result ≡ judged_shares self }
    {
        match Judged::of(self) {
            Ok(judged) => judged.shares(),
            Err(_) => 0,
        }
    }

    // The load of a table that 1 to 6 do not refuse; 0 of another.
    pub fn load(self) -> u64
        ensures { result ≡ judged_load self }
    {
        match Judged::of(self) {
            Ok(judged) => judged.load(),
            Err(_) => 0,
        }
    }

    // The numbers of the whole table.
    pub fn numbers(self) -> Numbers
        ensures { result ≡ numbers_in self }
    {
        Numbers {
            worst: self.worst,
            span: self.span,
            padding: self.padding,
        }
    }

    // What is booked for a stream, counted from 0; zeros past the eighth.
    pub fn reservation(self, i: usize) -> Reservation
        ensures { result ≡ reservation_at self i }
    {
        if i < Self::STREAMS_MAX {
            Reservation {
                reserved: self.reserved[i],
                period: self.period[i],
            }
        } else {
            Reservation::default()
        }
    }
}
