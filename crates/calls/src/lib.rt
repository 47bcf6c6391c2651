// The calls of a session and what they answer.
#![tactic(auto)]

mod refusal;

ghost use Rattle.std.specs.Prelude.{◌≡◌};
ghost use Rattle.calls.specs.Replies.{number_of, value_of, called_stream, stream_of, tag_of};

pub use refusal::Refusal;
use time::{Charge, Clock};

// Streams are counted from 1, a queue's places from 0. A tag is the host's own, and comes back as it was.
#[derive(Clone, Copy, Debug, PartialEq, Eq)]
pub enum Call {
    Arrival { stream: u64, place: u64, tag: u32 },
    Turn,
    OwnTurn { stream: u64, index: u64 },
    Done { duration: u64 },
    Clock { time: u64 },
}

// A refusal is told by its number: `reply_to` of `session` and `answered_as` of `shelf`, and so the laws above them, make `Refused` of any number.
#[derive(Clone, Copy, Debug, PartialEq, Eq)]
pub enum Reply {
    Refused {
        number: u64,
    },
    Arrived {
        stream: u64,
        queued: u64,
    },
    Sent {
        stream: u64,
        place: u64,
        tag: u32,
    },
    Expired {
        stream: u64,
        charge: Charge,
    },
    Moved {
        horizon: Clock,
    },
    Wait {
        until: Clock,
    },
    Done {
        stream: u64,
        charge: Charge,
        tag: u32,
    },
    Overlong {
        stream: u64,
        charge: Charge,
        tag: u32,
    },
    Clock {
        time: Clock,
    },
    Late {
        time: Clock,
    },
}

impl Call {
    // The stream that the call itself names, or 0.
    pub fn stream(self) -> u64
        ensures { result ≡ called_stream self }
    {
        match self {
            Call::Arrival { stream, .. } | Call::OwnTurn { stream, .. } => stream,
            Call::Turn | Call::Done { .. } | Call::Clock { .. } => 0,
        }
    }
}

impl Reply {
    // The number of the reply.
    pub fn number(self) -> u64
        ensures { result ≡ number_of self }
    {
        match self {
            Reply::Refused { number } => number,
            Reply::Arrived { .. } => 20,
            Reply::Sent { .. } => 21,
            Reply::Expired { .. } => 22,
            Reply::Moved { .. } => 23,
            Reply::Wait { .. } => 24,
            Reply::Done { .. } => 25,
            Reply::Overlong { .. } => 26,
            Reply::Clock { .. } => 27,
            Reply::Late { .. } => 28,
        }
    }

    // Its value, 0 for a refusal.
    pub fn value(self) -> u64
        ensures { result ≡ value_of self }
    {
        match self {
            Reply::Refused { .. } => 0,
            Reply::Arrived { queued, .. } => queued,
            Reply::Sent { place, .. } => place,
            Reply::Expired { charge, .. }
            | Reply::Done { charge, .. }
            | Reply::Overlong { charge, .. } => charge.micros(),
            Reply::Moved { horizon } => horizon.micros(),
            Reply::Wait { until } => until.micros(),
            Reply::Clock { time } | Reply::Late { time } => time.micros(),
        }
    }

    // The stream that it is about: a refused call's own.
    pub fn stream(self, call: Call) -> u64
        ensures { result ≡ stream_of call self }
    {
        match self {
            Reply::Refused { .. } => call.stream(),
            Reply::Arrived { stream, .. }
            | Reply::Sent { stream, .. }
            | Reply::Expired { stream, .. }
            | Reply::Done { stream, .. }
            | Reply::Overlong { stream, .. } => stream,
            Reply::Moved { .. } | Reply::Wait { .. } | Reply::Clock { .. } | Reply::Late { .. } =>
                0,
        }
    }

    // The tag of the request that was sent or that is done, else 0.
    pub fn tag(self) -> u32
        ensures { result ≡ tag_of self }
    {
        match self {
            Reply::Sent { tag, .. } | Reply::Done { tag, .. } | Reply::Overlong { tag, .. } => tag,
            _ => 0,
        }
    }
}
