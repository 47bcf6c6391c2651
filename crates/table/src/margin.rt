// The margin of a table: what the load leaves of the span, a whole number of either sign.
ghost use Rattle.std.specs.Prelude.{◌≡◌, pos, ◌≤◌};
ghost use Rattle.table.specs.Whole.{eq_z};
ghost use Rattle.table.specs.Margin.{load_max, less_load, margin, left_of, over_of};

use crate::signed::{above_zero, below_zero};

// Microseconds of the span. It is below 0 where the load is above the span.
#[repr(C)]
#[derive(Clone, Copy, Debug, Default, PartialEq, Eq)]
pub struct Margin(pub i64);

impl Margin {
    // The span less the load.
    pub(crate) fn of(span: u32, load: u64) -> Margin
        requires { load ≤ load_max }
        ensures { result ≡ margin (less_load span load) }
    {
        Margin(span as i64 - load as i64)
    }

    // Whether so much is left of the span.
    pub fn is_left(self, left: u64) -> bool
        ensures { result ≡ eq_z self.0 (pos left) }
    {
        (0 <= self.0) & (self.left() == left)
    }

    // What is left of the span: how far the margin is above 0, and 0 where it is not.
    pub fn left(self) -> u64
        ensures { result ≡ left_of self.0 }
    {
        above_zero(self.0)
    }

    // The amount over the span: how far the margin is below 0, and 0 where it is not.
    pub fn over(self) -> u64
        ensures { result ≡ over_of self.0 }
    {
        below_zero(self.0)
    }
}
