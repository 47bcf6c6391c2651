// The same over a table that is lent.
ghost use Rattle.std.specs.Prelude.{◌≡◌};
ghost use Rattle.booking.specs.Bookings.{begun_of, booking_of, closed_of};

use crate::{Book, Booked, Booking, Finished, Receipt};
use table::Numbers;

impl Book {
    // Whatever the table was before.
    pub fn begin_lent(&mut self, numbers: Numbers, limit1: u64, limit2: u64) -> Receipt
        ensures { (result ≡ (begun_of numbers.worst numbers.span numbers.padding limit1 limit2).receipt) × (self.new ≡ (begun_of numbers.worst numbers.span numbers.padding limit1 limit2).book) }
    {
        self.keep(Self::begin(numbers, limit1, limit2))
    }

    // Either booking.
    pub fn book_lent(&mut self, booking: Booking) -> Receipt
        ensures { (result ≡ (booking_of self.old booking).receipt) × (self.new ≡ (booking_of self.old booking).book) }
    {
        let booked = (*self).book(booking);
        self.keep(booked)
    }

    pub fn finish_lent(&mut self) -> Finished
        ensures { (result ≡ (closed_of self.old).finished) × (self.new ≡ (closed_of self.old).book) }
    {
        let closed = (*self).finish();
        *self = closed.book;
        closed.finished
    }

    // Keeps the table that a booking hands back, and passes its reply on.
    fn keep(&mut self, booked: Booked) -> Receipt
        ensures { (result ≡ booked.receipt) × (self.new ≡ booked.book) }
    {
        *self = booked.book;
        booked.receipt
    }
}
