// What the streams may still use.
ghost use Rattle.std.specs.Prelude.{◌≡◌, ◌*◌, ◌≤◌, pos, ◌-ℤ◌};
ghost use Rattle.table.specs.Whole.{above_zero, below_zero};
ghost use Rattle.time.specs.Time.{parts_max};
ghost use Rattle.time.specs.Latest.{remainders};

use crate::Charge;

// The sum of all remainders, times the span: a whole number, below 0 where the streams have had more than they may use up to the horizon.
#[repr(C)]
#[derive(Clone, Copy, Debug, Default, PartialEq, Eq, PartialOrd, Ord)]
pub struct Remainders(pub i64);

impl Remainders {
    // What the streams may use up to the horizon, times the span, less what they were charged.
    pub fn of(parts: u64, charges: Charge, span: u32) -> Remainders
        requires { (parts ≤ parts_max) × (charges.0 * span ≤ parts_max) }
        ensures { result ≡ remainders (pos parts -ℤ pos (charges.0 * span)) }
    {
        Remainders(parts as i64 - charges.times(span as u64) as i64)
    }

    // With so much more charged.
    pub fn less(self, charge: Charge, span: u32) -> Remainders
        requires { (above_zero self.0 ≤ parts_max) × (below_zero self.0 ≤ parts_max) × (charge.0 * span ≤ parts_max) }
        ensures { result ≡ remainders (self.0 -ℤ pos (charge.0 * span)) }
    {
        Remainders(self.0 - charge.times(span as u64) as i64)
    }
}
