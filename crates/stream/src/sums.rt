// The sum of all remainders, from which the latest safe moment follows.
ghost use Rattle.std.specs.Prelude.{◌≡◌, ℕ, ◌≤◌};
ghost use Rattle.table.specs.Ranges.{span_max};
ghost use Rattle.time.specs.Latest.{remainders};
ghost use Rattle.stream.specs.Bounds.{Bounded};
ghost use Rattle.stream.specs.Search.{nothing_summed, summed, remainders_so, Summable};

use crate::Stream;
use time::{Charge, Clock, Remainders};

// What the streams passed so far were charged, and what they may use up to the horizon, times the span.
#[derive(Clone, Copy)]
pub struct Sums {
    pub charges: Charge,
    pub parts: u64,
}

impl Sums {
    // No derive: an amount of disk time has no default.
    pub fn none() -> Sums
        ensures { result ≡ nothing_summed }
    {
        Sums {
            charges: Charge::of(0),
            parts: 0,
        }
    }

    // With one more stream; its part is whole, since its period divides the span.
    pub fn with(self, x: &Stream, span: u32, h: Clock) -> Sums
        requires { Summable self × (span ≤ span_max) × ((worst : ℕ) × Bounded worst h.0 x.now) }
        ensures { result ≡ summed self x.now span h.0 }
    {
        let part = x.granted.times(h.since(x.release)) * (span / x.period) as u64;
        Sums {
            charges: self.charges.plus(x.charge),
            parts: self.parts + part,
        }
    }

    // What the streams may still use, times the span.
    pub fn remainders(self, span: u32) -> Remainders
        requires { Summable self × (span ≤ span_max) }
        ensures { result ≡ remainders (remainders_so self span) }
    {
        Remainders::of(self.parts, self.charges, span)
    }
}
