// Why a call of a session is refused.
ghost use Rattle.std.specs.Prelude.{◌≡◌};
ghost use Rattle.calls.specs.Refusals.{refusal_number};

// There is no such stream; its queue holds sixteen; a request is at the disk, or none is; a duration outside its range; a time below the clock; a clock or a deadline that would pass the session's end; an index that is not in the set; and a session that is not sound.
#[derive(Clone, Copy, Debug, PartialEq, Eq)]
pub enum Refusal {
    NoStream,
    QueueFull,
    Busy,
    Idle,
    Duration,
    Backwards,
    PastEnd,
    NotInSet,
    Unsound,
}

impl Refusal {
    // The number by which it is told: 8 to 15, and 31.
    pub fn number(self) -> u64
        ensures { result ≡ refusal_number self }
    {
        match self {
            Refusal::NoStream => 8,
            Refusal::QueueFull => 9,
            Refusal::Busy => 10,
            Refusal::Idle => 11,
            Refusal::Duration => 12,
            Refusal::Backwards => 13,
            Refusal::PastEnd => 14,
            Refusal::NotInSet => 15,
            Refusal::Unsound => 31,
        }
    }
}
