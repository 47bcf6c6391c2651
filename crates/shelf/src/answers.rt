// What is answered to an image.
ghost use Rattle.std.specs.Prelude.{◌≡◌};
ghost use Rattle.table.specs.Reservations.{table_of_records};
ghost use Rattle.shelf.specs.Image.{unopened, opened_as, told_as, answered_as, shown_of, viewed_as, state_as, closing_as};

use crate::{Image, Opening, Told};
use calls::{Call, Refusal, Reply};
use order::Order;
use session::Session;
use table::{Margin, Numbers, Records};
use view::{Closing, State, View};

// A session opened with what was taken of a table, and with an order. A number that is that of no order is refused before the table is looked at.
pub(crate) fn open(numbers: Numbers, records: Records, order: u64) -> Opening
    ensures { result ≡ opened_as (table_of_records numbers.worst numbers.span numbers.padding records.rows records.count) order }
{
    match Order::try_from(order) {
        Ok(order) => Opening::from(Session::open_taken(numbers, records, order)),
        Err(_) => unopened(),
    }
}

// What stands where there is no such order: 31, and the all-zero session.
fn unopened() -> Opening
    ensures { result ≡ unopened }
{
    Opening {
        number: Refusal::Unsound.number(),
        margin: Margin::default(),
        session: Image::from(Session::zero()),
    }
}

// Makes a call of an image that is lent. One whose order stands for none is refused by 31, and is what it was.
// With the hint each function that C calls makes its own call alone; as one function of the five, a completion takes 13 % and a report of the time 16 % more instructions.
#[inline(always)]
pub(crate) fn call(image: &mut Image, call: Call) -> Told
    ensures { (result ≡ (answered_as image.old call).reply) × (image.new ≡ (answered_as image.old call).session) }
{
    match Session::try_from(*image) {
        Ok(session) => {
            let answer = session.call(call);
            *image = Image::from(answer.session);
            told(answer.reply, call)
        }
        Err(_) => {
            let number = Refusal::Unsound.number();
            told(Reply::Refused { number }, call)
        }
    }
}

// A reply to a call, as numbers.
fn told(reply: Reply, call: Call) -> Told
    ensures { result ≡ told_as call reply }
{
    Told {
        number: reply.number(),
        stream: reply.stream(call),
        value: reply.value(),
        tag: reply.tag(),
    }
}

// The session to be shown: an image that stands for none is shown as the all-zero session, which is not sound.
fn shown(image: Image) -> Session
    ensures { result ≡ shown_of image }
{
    match Session::try_from(image) {
        Ok(session) => session,
        Err(_) => Session::zero(),
    }
}

pub(crate) fn view(image: Image) -> View
    ensures { result ≡ viewed_as image }
{
    view::view_of(&shown(image))
}

pub(crate) fn state(image: Image, stream: u64) -> State
    ensures { result ≡ state_as image stream }
{
    view::state_of(&shown(image), stream)
}

pub(crate) fn closing(image: Image, stream: u64) -> Closing
    ensures { result ≡ closing_as image stream }
{
    view::closing_of(&shown(image), stream)
}
