// What a line comes to.
ghost use Rattle.std.specs.Prelude.{◌≡◌};
ghost use Rattle.booking.specs.Bookings.{accepted, booked};
ghost use Rattle.ledger.specs.Ledger.{taken_by};

use crate::Entry;
use booking::{Book, Booked, Receipt};
use table::Numbers;

// The table after a line, and the reply to it; a line that is blank or wrong changes nothing.
pub fn taken(book: Book, entry: Entry) -> Booked
    ensures { result ≡ taken_by book entry }
{
    match entry {
        Entry::Blank => passed_over(book),
        Entry::Begin {
            worst,
            span,
            padding,
            limit1,
            limit2,
        } => {
            let numbers = Numbers {
                worst,
                span,
                padding,
            };
            Book::begin(numbers, limit1, limit2)
        }
        Entry::Call(booking) => book.book(booking),
        Entry::Wrong => passed_over(book),
    }
}

fn passed_over(book: Book) -> Booked
    ensures { result ≡ booked book (accepted 0) }
{
    Booked {
        book,
        receipt: Receipt::default(),
    }
}
