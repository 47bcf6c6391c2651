// Whole microseconds of two kinds that are counted apart: when it is, and how much disk time was had.
#![tactic(auto)]

mod remainders;

ghost use Rattle.std.specs.Prelude.{◌≡◌, ◌+◌, ◌-◌, ◌*◌, ◌/◌, ◌≤◌, ◌<◌, leb, ltb, eqb};
ghost use Rattle.time.specs.Exact.{less, same, paced, fraction_of, Proper};
ghost use Rattle.time.specs.Time.{moment, disk_time, session_end, duration_max, parts_max};
ghost use Rattle.time.specs.Latest.{latest_of};

pub use remainders::Remainders;

// A moment of clock time.
#[repr(C)]
#[derive(Clone, Copy, Debug, PartialEq, Eq, PartialOrd, Ord)]
pub struct Clock(u64);

// An amount of disk time.
#[repr(C)]
#[derive(Clone, Copy, Debug, PartialEq, Eq, PartialOrd, Ord)]
pub struct Charge(u64);

// An exact moment of clock time, which is not rounded: whole microseconds, and a rest over `below`.
#[derive(Clone, Copy, Debug)]
pub struct Exact {
    whole: u64,
    rest: u64,
    below: u64,
}

// Five functions here and of `Charge` ask that a number is at most the session's end: of one argument each. A type that keeps it would refuse clocks that images carry.
impl Clock {
    // No clock and no deadline passes the session's end.
    pub const END: u64 = 1_000_000_000_000;

    pub fn at(micros: u64) -> Clock
        ensures { result ≡ moment micros }
    {
        Clock(micros)
    }

    pub fn micros(self) -> u64
        ensures { result ≡ self.0 }
    {
        self.0
    }

    // A length of clock time later than another moment.
    pub fn is_later_by(self, earlier: Clock, length: u32) -> bool
        ensures { result ≡ eqb self.0 (earlier.0 + length) }
    {
        self.0.checked_sub(earlier.0) == Some(length as u64)
    }

    pub fn is_past_end(self) -> bool
        ensures { result ≡ ltb session_end self.0 }
    {
        Self::END < self.0
    }

    // How long ago an earlier moment was.
    pub fn since(self, earlier: Clock) -> u64
        requires { earlier.0 ≤ self.0 }
        ensures { result ≡ self.0 - earlier.0 }
    {
        self.0 - earlier.0
    }

    // The moment a length of clock time later.
    pub fn plus(self, length: u32) -> Clock
        requires { self.0 ≤ session_end }
        ensures { result ≡ moment (self.0 + length) }
    {
        Clock(self.0 + length as u64)
    }

    // The first of three crossings from disk time to clock time: the clock when a request has taken that long.
    pub fn after(self, duration: Charge) -> Clock
        requires { (self.0 ≤ session_end) × (duration.0 ≤ session_end) }
        ensures { result ≡ moment (self.0 + duration.0) }
    {
        Clock(self.0 + duration.0)
    }

    // The second: this horizon less the sum of all remainders, which is scaled by the span, rounded down once. Any three numbers are answered.
    pub fn less_remainders(self, sum: Remainders, span: u64) -> Option<Clock>
        ensures { result ≡ latest_of self.0 sum.0 span }
    {
        if span == 0 {
            return None;
        }
        let parts = sum.0.unsigned_abs();
        let micros = if sum.0 < 0 {
            self.0.checked_add(parts / span)?
        } else {
            self.0.checked_sub(parts.div_ceil(span))?
        };
        Some(Clock(micros))
    }

    // The third: this release and a charge that was had at the pace of a budget in a period, r + c × p / g, never rounded.
    pub fn paced(self, charge: Charge, period: u32, budget: Charge) -> Exact
        requires { (0 < budget.0) × (self.0 ≤ session_end) × (charge.0 * period ≤ parts_max) }
        ensures { result ≡ paced self.0 charge.0 period budget.0 }
    {
        let due = charge.0 * period as u64;
        Exact {
            whole: self.0 + due / budget.0,
            rest: due % budget.0,
            below: budget.0,
        }
    }
}

// Two are compared as fractions, by `Proper` numbers: a derive would compare rests over different numbers, and a trait's `eq` and `lt` can ask nothing of the two.
impl Exact {
    // Earlier than another: by whole parts, then by rests crosswise, so that 64 bits are enough.
    pub fn is_before(self, other: Exact) -> bool
        requires { Proper self × Proper other }
        ensures { result ≡ less (fraction_of self) (fraction_of other) }
    {
        let rest = self.rest * other.below < other.rest * self.below;
        (self.whole < other.whole) | ((self.whole == other.whole) & rest)
    }

    pub fn is(self, other: Exact) -> bool
        requires { Proper self × Proper other }
        ensures { result ≡ same (fraction_of self) (fraction_of other) }
    {
        let rest = self.rest * other.below == other.rest * self.below;
        (self.whole == other.whole) & rest
    }
}

impl Charge {
    // The longest duration that may be reported.
    pub const DURATION_MAX: u64 = 10_000_000;

    pub fn of(micros: u64) -> Charge
        ensures { result ≡ disk_time micros }
    {
        Charge(micros)
    }

    pub fn micros(self) -> u64
        ensures { result ≡ self.0 }
    {
        self.0
    }

    // Longer than the worst-case time.
    pub fn is_over(self, worst: u32) -> bool
        ensures { result ≡ ltb worst self.0 }
    {
        (worst as u64) < self.0
    }

    // At most one completion of any length above a budget.
    pub fn is_near(self, budget: Charge) -> bool
        ensures { result ≡ leb self.0 (budget.0 + duration_max) }
    {
        self.0.saturating_sub(Self::DURATION_MAX) <= budget.0
    }

    // At least what it started with and the worst-case time for each expired slot.
    pub fn covers(self, start: Charge, worst: u32, expired: u64) -> bool
        requires { self.0 ≤ session_end }
        ensures { result ≡ leb (start.0 + worst * expired) self.0 }
    {
        let spent = (worst as u64).saturating_mul(expired);
        start.0.saturating_add(spent) <= self.0
    }

    // What was had above a budget: nothing, where less was had.
    pub fn above(self, budget: Charge) -> Charge
        ensures { result ≡ disk_time (self.0 - budget.0) }
    {
        Charge(self.0.saturating_sub(budget.0))
    }

    pub fn plus(self, more: Charge) -> Charge
        requires { (self.0 ≤ session_end) × (more.0 ≤ session_end) }
        ensures { result ≡ disk_time (self.0 + more.0) }
    {
        Charge(self.0 + more.0)
    }

    // Taken so many times, or over a length of clock time: a product, and no time any more.
    pub fn times(self, n: u64) -> u64
        requires { self.0 * n ≤ parts_max }
        ensures { result ≡ self.0 * n }
    {
        self.0 * n
    }
}
