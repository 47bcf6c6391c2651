// The three numbers of a whole table, which travel together.
ghost use Rattle.std.specs.Prelude.{◌≡◌};
ghost use Rattle.table.specs.Admission.{padding_of, granted_of, ranges_refusal, stream_refusal};
ghost use Rattle.table.specs.Margin.{answer_by};

use crate::{Refusal, Reservation, Table};

// W, H and k.
#[derive(Clone, Copy, Debug, PartialEq, Eq)]
pub struct Numbers {
    pub worst: u32,
    pub span: u32,
    pub padding: u32,
}

impl Numbers {
    // 2 to 4: W, H and k.
    pub fn ranges_refusal(self) -> Result<(), Refusal>
        ensures { result ≡ answer_by (ranges_refusal self.worst self.span self.padding) }
    {
        if (self.worst < Table::WORST_MIN) | (Table::WORST_MAX < self.worst) {
            return Err(Refusal::Worst);
        }
        if (self.span < Table::SPAN_MIN) | (Table::SPAN_MAX < self.span) {
            return Err(Refusal::Span);
        }
        if Padding::MAX < self.padding {
            return Err(Refusal::Padding);
        }
        Ok(())
    }

    // 5 and 6: one stream.
    pub fn stream_refusal(self, stream: Reservation) -> Result<(), Refusal>
        ensures { result ≡ answer_by (stream_refusal self.worst self.span self.padding stream.reserved stream.period) }
    {
        let period = stream.period;
        if (period < Table::PERIOD_MIN) | (Table::PERIOD_MAX < period) {
            return Err(Refusal::Period);
        }
        if self.span % period != 0 {
            return Err(Refusal::Period);
        }
        let reserved = stream.reserved;
        if (reserved == 0) | ((period as u64) < self.granted(reserved)) {
            return Err(Refusal::Budget);
        }
        Ok(())
    }

    // The granted budget of a stream.
    pub fn granted(self, reserved: u32) -> u64
        ensures { result ≡ granted_of self.worst self.padding reserved }
    {
        let padding = Padding::of(self.padding);
        reserved as u64 + padding.0 as u64 * self.worst as u64
    }
}

// How many worst-case requests a granted budget holds beside the reserved time.
#[derive(Clone, Copy, Debug, PartialEq, Eq)]
pub struct Padding(pub u32);

impl Padding {
    pub const DEFAULT: u32 = 3;

    pub const MAX: u32 = 3;

    // The padding that a table's k stands for.
    pub fn of(k: u32) -> Padding
        ensures { result.0 ≡ padding_of k }
    {
        if k == 0 {
            Padding(Self::DEFAULT)
        } else {
            Padding(k)
        }
    }
}
