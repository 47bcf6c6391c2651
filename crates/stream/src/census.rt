// What is kept of the streams of a session as it is judged, one by one.
ghost use Rattle.std.specs.Prelude.{◌≡◌, ◌<◌};
ghost use Rattle.stream.specs.Search.{begun, counted, Countable, says, Judgeable};

use crate::{Stream, Sums};
use table::{Margin, Numbers, Table};
use time::{Clock, Remainders};

// W, H, k and the horizon that the session keeps, and, of the used streams that were passed, the smallest deadline, the sums of charges and parts, the sum of the shares and the smallest period.
#[derive(Clone, Copy)]
pub struct Census {
    pub numbers: Numbers,
    pub horizon: Clock,
    pub soonest: Clock,
    pub sums: Sums,
    pub shares: u64,
    pub least: u32,
}

impl Census {
    // Nothing passed yet, or none where the numbers are refused: the smallest deadline and period start with those of the first stream.
    pub fn begin(numbers: Numbers, count: usize, horizon: Clock, first: &Stream) -> Option<Census>
        ensures { result ≡ begun numbers count horizon first.now }
    {
        if (count < 1) | (Table::STREAMS_MAX < count) | numbers.ranges_refusal().is_err() {
            return None;
        }
        Some(Census {
            numbers,
            horizon,
            soonest: first.deadline,
            sums: Sums::none(),
            shares: 0,
            least: first.period,
        })
    }

    // With one more used stream, or none where that is not in order up to the horizon.
    pub fn with(self, x: &Stream) -> Option<Census>
        requires { Countable self }
        ensures { result ≡ counted self x.now }
    {
        if !x.is_in_order(self.numbers, self.horizon) {
            return None;
        }
        let span = self.numbers.span;
        let share = x.granted.times((span / x.period) as u64);
        Some(Census {
            soonest: self.soonest.min(x.deadline),
            sums: self.sums.with(x, span, self.horizon),
            shares: self.shares + share,
            least: self.least.min(x.period),
            ..self
        })
    }

    // Whether the load of all streams fits the span and leaves that margin, the horizon is the smallest deadline, and `remainders` is the sum of all remainders.
    pub fn is_sound(self, margin: Margin, remainders: Remainders) -> bool
        requires { Judgeable self }
        ensures { result ≡ says self margin.0 remainders.0 }
    {
        let Numbers { worst, span, .. } = self.numbers;
        let load = self.shares + worst as u64 * (span / self.least) as u64;
        if (span as u64) < load {
            return false;
        }
        let left = margin.is_left(span as u64 - load);
        let soonest = self.horizon == self.soonest;
        let summed = remainders == self.sums.remainders(span);
        left & soonest & summed
    }
}
