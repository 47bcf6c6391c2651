// A trace run through a session: each event is a call, and its answer a printed line.
#![tactic(auto)]

mod refusal;

ghost use Rattle.std.specs.Prelude.{◌≡◌};
ghost use Rattle.trace.specs.Trace.{call_of, called, applied, handed};

use calls::Call;
use file::Event;
use listing::Text;
pub use refusal::Refusal;
use session::Session;

// The session after an event, and the line that is printed for it.
#[derive(Clone, Copy)]
pub struct Stepped {
    pub session: Session,
    pub text: Text,
}

// The call that an event asks for; one that is not as laid out asks for none, and no file that was read has one.
pub fn call_of(event: Event) -> Option<Call>
    ensures { result ≡ call_of event }
{
    match event {
        Event::Arrival { stream, place, tag } => Some(Call::Arrival { stream, place, tag }),
        Event::Turn => Some(Call::Turn),
        Event::OwnTurn { stream, index } => Some(Call::OwnTurn { stream, index }),
        Event::Done { duration } => Some(Call::Done { duration }),
        Event::Clock { time } => Some(Call::Clock { time }),
        Event::Malformed => None,
    }
}

// Applies an event, which is counted from 1.
pub fn step(session: Session, number: u64, event: Event) -> Stepped
    ensures { result ≡ handed (applied session number event) }
{
    if let Some(call) = call_of(event) {
        return called(session, number, call);
    }
    let malformed = file::Refusal::Layout.number();
    let text = listing::line(number, malformed, 0, 0, session.clock.micros(), 0);
    Stepped { session, text }
}

// Makes a call, and renders its answer.
fn called(session: Session, number: u64, call: Call) -> Stepped
    ensures { result ≡ handed (called session number call) }
{
    let answer = session.call(call);
    let after = answer.session;
    let reply = answer.reply;
    let text = listing::line(
        number,
        reply.number(),
        reply.stream(call),
        reply.value(),
        after.clock.micros(),
        reply.tag() as u64,
    );
    Stepped {
        session: after,
        text,
    }
}
