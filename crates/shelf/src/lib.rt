// What products in C and Rust link. A session crosses as an image of numbers, since an enum cannot; a booking table crosses as it is.
#![tactic(auto)]

mod answers;
mod images;

ghost use Rattle.std.specs.Prelude.{◌≡◌};
ghost use Rattle.table.specs.Reservations.{lent_table};
ghost use Rattle.file.specs.Reading.{read_of, table_in};
ghost use Rattle.repair.specs.Salvage.{salvage_of, salvaged_on, listed_on};
ghost use Rattle.booking.specs.Bookings.{begun_of, add_of, withdraw_of, finished_of};
ghost use Rattle.shelf.specs.Image.{opened_as, answered_as, viewed_as, state_as, closing_as, latest_as};
ghost use Rattle.shelf.specs.Filed.{read_as, wrote_as, wrote_on};

use answers::{call, closing, open, state, view};
use booking::{Book, Booking, Finished, Receipt};
use calls::Call;
use file::{Form, Refusal};
pub use images::{Filed, Image, Moment, Opening, Told, Wrote};
use order::Order;
use repair::Salvaged;
use table::{Numbers, Reservation, Table, take_in};
use time::{Clock, Remainders};
use view::{Closing, State, View};

// Opens a session with W, H, k, a lent table of any length and the number of an order.
#[unsafe(no_mangle)]
pub extern "C" fn yerbagunt_open(
    worst: u32,
    span: u32,
    padding: u32,
    table: &[Reservation],
    order: u64,
) -> Opening
    ensures { result ≡ opened_as (lent_table worst span padding table.now) order }
{
    let numbers = Numbers {
        worst,
        span,
        padding,
    };
    open(numbers, take_in(table), order)
}

#[unsafe(no_mangle)]
pub extern "C" fn yerbagunt_arrival(session: &mut Image, stream: u64, place: u64, tag: u32) -> Told
    ensures { (result ≡ (answered_as session.old (Call.Arrival stream place tag)).reply) × (session.new ≡ (answered_as session.old (Call.Arrival stream place tag)).session) }
{
    call(session, Call::Arrival { stream, place, tag })
}

#[unsafe(no_mangle)]
pub extern "C" fn yerbagunt_turn(session: &mut Image) -> Told
    ensures { (result ≡ (answered_as session.old Call.Turn).reply) × (session.new ≡ (answered_as session.old Call.Turn).session) }
{
    call(session, Call::Turn)
}

#[unsafe(no_mangle)]
pub extern "C" fn yerbagunt_own_turn(session: &mut Image, stream: u64, index: u64) -> Told
    ensures { (result ≡ (answered_as session.old (Call.OwnTurn stream index)).reply) × (session.new ≡ (answered_as session.old (Call.OwnTurn stream index)).session) }
{
    call(session, Call::OwnTurn { stream, index })
}

#[unsafe(no_mangle)]
pub extern "C" fn yerbagunt_done(session: &mut Image, duration: u64) -> Told
    ensures { (result ≡ (answered_as session.old (Call.Done duration)).reply) × (session.new ≡ (answered_as session.old (Call.Done duration)).session) }
{
    call(session, Call::Done { duration })
}

#[unsafe(no_mangle)]
pub extern "C" fn yerbagunt_clock(session: &mut Image, time: u64) -> Told
    ensures { (result ≡ (answered_as session.old (Call.Clock time)).reply) × (session.new ≡ (answered_as session.old (Call.Clock time)).session) }
{
    call(session, Call::Clock { time })
}

// The clock, the horizon, the latest safe moment and the margin of a session.
#[unsafe(no_mangle)]
pub extern "C" fn yerbagunt_view(session: Image) -> View
    ensures { result ≡ viewed_as session }
{
    view(session)
}

// The latest safe moment of a session, from its horizon, its sum of remainders and its span. Nothing else is judged.
#[unsafe(no_mangle)]
pub extern "C" fn yerbagunt_latest(horizon: u64, remainders: i64, span: u64) -> Moment
    ensures { result ≡ latest_as horizon remainders span }
{
    Moment::from(Clock::at(horizon).less_remainders(Remainders(remainders), span))
}

// A stream of a session, counted from 1.
#[unsafe(no_mangle)]
pub extern "C" fn yerbagunt_stream(session: Image, stream: u64) -> State
    ensures { result ≡ state_as session stream }
{
    state(session, stream)
}

// The last job that a stream, counted from 1, closed.
#[unsafe(no_mangle)]
pub extern "C" fn yerbagunt_last_job(session: Image, stream: u64) -> Closing
    ensures { result ≡ closing_as session stream }
{
    closing(session, stream)
}

// Where the parts of a session file are. The order and every event are judged, and no number of the table but its count.
#[unsafe(no_mangle)]
pub extern "C" fn yerbagunt_read(file: &[u8]) -> Filed
    ensures { result ≡ read_as (read_of file.now) }
{
    Filed::from(file::read(file))
}

// The table of a session file, from any bytes.
#[unsafe(no_mangle)]
pub extern "C" fn yerbagunt_table(file: &[u8]) -> Table
    ensures { result ≡ table_in file.now }
{
    file::table_of(file)
}

// Writes the file of a table, a trace and the number of an order at the start of a buffer, with a third body of so many bytes.
#[unsafe(no_mangle)]
pub extern "C" fn yerbagunt_write(
    table: Table,
    trace: &[u8],
    out: &mut [u8],
    order: u64,
    third: u64,
) -> Wrote
    ensures value { result ≡ wrote_as table order third trace.now out.old }
    ensures out_after { out.new ≡ wrote_on table order third trace.now out.old }
{
    let Ok(order) = Order::try_from(order) else {
        return Wrote::from(Err(Refusal::Layout));
    };
    let Ok(form) = Form::try_from(third) else {
        return Wrote::from(Err(Refusal::Layout));
    };
    Wrote::from(file::write(table, form, order, trace, out))
}

// Writes a sound file of what is sound in an old one at the start of a buffer, and lists each change, as two numbers, at the start of a list.
#[unsafe(no_mangle)]
pub extern "C" fn yerbagunt_salvage(
    old: &[u8],
    out: &mut [u8],
    changes: &mut [[u64; 2]],
) -> Salvaged
    ensures value { result ≡ salvage_of old.now out.old changes.old }
    ensures out_after { out.new ≡ salvaged_on old.now out.old changes.old }
    ensures changes_after { changes.new ≡ listed_on old.now out.old changes.old }
{
    repair::salvage(old, out, changes)
}

// Begins a booking table, whatever it was, with W, H, k and the limits of desk 1 and desk 2.
#[unsafe(no_mangle)]
pub extern "C" fn yerbagunt_begin(
    book: &mut Book,
    worst: u32,
    span: u32,
    padding: u32,
    limit1: u64,
    limit2: u64,
) -> Receipt
    ensures { (result ≡ (begun_of worst span padding limit1 limit2).receipt) × (book.new ≡ (begun_of worst span padding limit1 limit2).book) }
{
    let numbers = Numbers {
        worst,
        span,
        padding,
    };
    book.begin_lent(numbers, limit1, limit2)
}

// A stream more of a desk.
#[unsafe(no_mangle)]
pub extern "C" fn yerbagunt_add(book: &mut Book, desk: u64, reserved: u32, period: u32) -> Receipt
    ensures { (result ≡ (add_of book.old desk reserved period).receipt) × (book.new ≡ (add_of book.old desk reserved period).book) }
{
    book.book_lent(Booking::Add {
        desk,
        reserved,
        period,
    })
}

// One stream less of a desk.
#[unsafe(no_mangle)]
pub extern "C" fn yerbagunt_withdraw(book: &mut Book, desk: u64, number: u64) -> Receipt
    ensures { (result ≡ (withdraw_of book.old desk number).receipt) × (book.new ≡ (withdraw_of book.old desk number).book) }
{
    book.book_lent(Booking::Withdraw { desk, number })
}

// The streams of a finished table, as opening takes them.
#[unsafe(no_mangle)]
pub extern "C" fn yerbagunt_finish(book: Book) -> Finished
    ensures { result ≡ finished_of book }
{
    book.finish().finished
}
