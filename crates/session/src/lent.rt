// The same by lending: a session that is opened with a lent table, and the calls of a session that is kept in place.
ghost use Rattle.std.specs.Prelude.{◌≡◌};
ghost use Rattle.table.specs.Reservations.{table_of_records, lent_table};
ghost use Rattle.session.specs.Calls.{answer_to};
ghost use Rattle.session.specs.Opening.{opening_of};

use crate::{Opened, Session, fresh};
use calls::{Call, Reply};
use order::Order;
use table::{Numbers, Records, Reservation, Table, take_in};

impl Session {
    // Opens a session with W, H, k, a lent table of any length and an order.
    pub fn open_lent(numbers: Numbers, table: &[Reservation], order: Order) -> Opened
        ensures { result ≡ opening_of (lent_table numbers.worst numbers.span numbers.padding table.now) order }
    {
        Session::open_taken(numbers, take_in(table), order)
    }

    // The same with what was taken of it. It says what `open` says: by a call of that function, or of its two, the opening that C links copies the session once more, and one of one stream takes a quarter more instructions.
    pub fn open_taken(numbers: Numbers, records: Records, order: Order) -> Opened
        ensures { result ≡ opening_of (table_of_records numbers.worst numbers.span numbers.padding records.rows records.count) order }
    {
        let table = Table::of(numbers, records);
        match table.admission() {
            Ok(margin) => Opened {
                session: fresh(table, margin, order),
                admission: Ok(margin),
            },
            Err(refusal) => Opened {
                session: Session::zero(),
                admission: Err(refusal),
            },
        }
    }

    // Makes a call of a session that is lent.
    pub fn call_lent(&mut self, call: Call) -> Reply
        ensures { (result ≡ (answer_to self.old call).reply) × (self.new ≡ (answer_to self.old call).session) }
    {
        let answer = (*self).call(call);
        *self = answer.session;
        answer.reply
    }
}
