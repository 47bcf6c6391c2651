// What a session shows of itself. Nothing is shown of one that is not sound.
#![tactic(auto)]

ghost use Rattle.std.specs.Prelude.{◌≡◌};
ghost use Rattle.view.specs.View.{view_of, stream_of, state_of, closing_of};

use calls::Refusal;
use session::Session;
use stream::{Job, Stream};
use table::Margin;
use time::Clock;

// The number is 0, or 31 beside zeros.
#[repr(C)]
#[derive(Clone, Copy, Debug, PartialEq, Eq)]
pub struct View {
    pub number: u64,
    pub clock: Clock,
    pub horizon: Clock,
    pub latest: Clock,
    pub margin: Margin,
}

// One stream. The number is 0, or 31 or 8 beside zeros.
#[repr(C)]
#[derive(Clone, Copy, Debug, PartialEq, Eq)]
pub struct State {
    pub number: u64,
    pub stream: Stream,
}

// The last job that a stream closed. The number is 0, or 31 or 8 beside zeros.
#[repr(C)]
#[derive(Clone, Copy, Debug, PartialEq, Eq)]
pub struct Closing {
    pub number: u64,
    pub job: Job,
}

// The clock, the horizon, the latest safe moment and the margin: 31.
pub fn view_of(session: &Session) -> View
    ensures { result ≡ view_of session.now }
{
    let Some(ahead) = session.outlook() else {
        let start = Clock::at(0);
        return View {
            number: Refusal::Unsound.number(),
            clock: start,
            horizon: start,
            latest: start,
            margin: Margin::default(),
        };
    };
    View {
        number: 0,
        clock: session.clock,
        horizon: ahead.horizon,
        latest: ahead.latest,
        margin: session.margin,
    }
}

// A stream, counted from 1: 31, 8.
pub fn state_of(session: &Session, stream: u64) -> State
    ensures { result ≡ state_of session.now stream }
{
    match stream_of(session, stream) {
        Ok(stream) => State { number: 0, stream },
        Err(refusal) => State {
            number: refusal.number(),
            stream: Stream::fresh(0, 0, 0),
        },
    }
}

// The last job that a stream, counted from 1, closed, all zeros before the first: 31, 8.
pub fn closing_of(session: &Session, stream: u64) -> Closing
    ensures { result ≡ closing_of session.now stream }
{
    let state = state_of(session, stream);
    Closing {
        number: state.number,
        job: state.stream.last,
    }
}

// The stream that is to be shown, counted from 1.
fn stream_of(session: &Session, stream: u64) -> Result<Stream, Refusal>
    ensures { result ≡ stream_of session.now stream }
{
    if !session.is_sound() {
        return Err(Refusal::Unsound);
    }
    if (stream == 0) | ((session.count as u64) < stream) {
        return Err(Refusal::NoStream);
    }
    Ok(session.streams[(stream - 1) as usize])
}
