// The bookings, by value: each hands the table back beside its reply.
ghost use Rattle.std.specs.Prelude.{◌≡◌, IfOk};
ghost use Rattle.booking.specs.Refusal.{refusal_number, refused_by};
ghost use Rattle.booking.specs.Book.{desk_of};
ghost use Rattle.booking.specs.Bookings.{accepted, refused, booked, zero_book, begun_of, with_stream, without_stream, desk_refusal, add_refusal, withdraw_refusal, add_of, withdraw_of, booking_of, finished_of, closed_of};

use crate::refusal::Refusal;
use crate::{Book, Booked, Booking, Closed, Desk, Finished, Receipt};
use table::{Numbers, Records, Reservation, Table};

impl Book {
    pub const DESKS: u64 = 2;

    // Begins a table with W, H, k and the limits of desk 1 and desk 2: 2, 3, 4, and then the table is all zero. The limits are two, as C's function has them.
    pub fn begin(numbers: Numbers, limit1: u64, limit2: u64) -> Booked
        ensures { result ≡ begun_of numbers.worst numbers.span numbers.padding limit1 limit2 }
    {
        match numbers.ranges_refusal() {
            Ok(()) => {
                let book = Book {
                    worst: numbers.worst,
                    span: numbers.span,
                    padding: numbers.padding,
                    unused: 0,
                    first: Desk::empty(limit1),
                    second: Desk::empty(limit2),
                };
                accepted(book, 0)
            }
            Err(refusal) => refused(Self::zero(), Refusal::from(refusal)),
        }
    }

    // A stream more of a desk: 31, 30, 1, 5, 6, 18, 7. Reserved time and period stand apart, as in C's function and in the file of bookings.
    pub fn add(self, desk: u64, reserved: u32, period: u32) -> Booked
        ensures { result ≡ add_of self desk reserved period }
    {
        match self.with_more(desk, Reservation { reserved, period }) {
            Ok(own) => accepted(self.with_desk(desk, own), own.count),
            Err(refusal) => refused(self, refusal),
        }
    }

    // One stream less of a desk, by its number among its own: 31, 30, 19.
    pub fn withdraw(self, desk: u64, number: u64) -> Booked
        ensures { result ≡ withdraw_of self desk number }
    {
        match self.with_fewer(desk, number) {
            Ok(own) => accepted(self.with_desk(desk, own), own.count),
            Err(refusal) => refused(self, refusal),
        }
    }

    // Either.
    pub fn book(self, booking: Booking) -> Booked
        ensures { result ≡ booking_of self booking }
    {
        match booking {
            Booking::Add {
                desk,
                reserved,
                period,
            } => self.add(desk, reserved, period),
            Booking::Withdraw { desk, number } => self.withdraw(desk, number),
        }
    }

    // The streams of the finished table: 31. The table is what it was.
    pub fn finish(self) -> Closed
        ensures { result ≡ closed_of self }
    {
        Closed {
            book: self,
            finished: self.finished(),
        }
    }

    fn finished(self) -> Finished
        ensures { result ≡ finished_of self }
    {
        if self.is_sound() {
            return Finished {
                number: 0,
                records: self.records(),
            };
        }
        Finished {
            number: Refusal::Unsound.number(),
            records: Records::default(),
        }
    }

    // The all-zero table, which is not sound.
    pub fn zero() -> Book
        ensures { result ≡ zero_book }
    {
        Self::default()
    }

    // A desk of a sound table: 31 and 30.
    fn own(self, desk: u64) -> Result<Desk, Refusal>
        ensures number { refused_by result ≡ desk_refusal self desk }
        ensures value { IfOk result (λ own. own ≡ desk_of self desk) }
    {
        if !self.is_sound() {
            return Err(Refusal::Unsound);
        }
        match desk {
            1 => Ok(self.first),
            Book::DESKS => Ok(self.second),
            _ => Err(Refusal::Desk),
        }
    }

    // A desk with a stream more.
    fn with_more(self, desk: u64, stream: Reservation) -> Result<Desk, Refusal>
        ensures number { refused_by result ≡ add_refusal self desk stream.reserved stream.period }
        ensures value { IfOk result (λ own. own ≡ with_stream (desk_of self desk) stream.reserved stream.period) }
    {
        let old = self.own(desk)?;
        if Table::STREAMS_MAX <= self.count() {
            return Err(Refusal::Table(table::Refusal::Streams));
        }
        self.numbers().stream_refusal(stream)?;
        let own = old.with_stream(stream);
        if own.limit < self.shares(own) {
            return Err(Refusal::Limit);
        }
        self.with_desk(desk, own).table().admission()?;
        Ok(own)
    }

    // A desk with the stream of a number less.
    fn with_fewer(self, desk: u64, number: u64) -> Result<Desk, Refusal>
        ensures number { refused_by result ≡ withdraw_refusal self desk number }
        ensures value { IfOk result (λ own. own ≡ without_stream (desk_of self desk) number) }
    {
        let old = self.own(desk)?;
        if (number < 1) | ((old.count as u64) < number) {
            return Err(Refusal::Stream);
        }
        Ok(old.without_stream(number))
    }
}

// 0, and the desk's own count.
fn accepted(book: Book, count: usize) -> Booked
    ensures { result ≡ booked book (accepted count) }
{
    let receipt = Receipt {
        number: 0,
        value: count as u64,
    };
    Booked { book, receipt }
}

// The number of a refusal, and 0: the table is what it was.
fn refused(book: Book, refusal: Refusal) -> Booked
    ensures { result ≡ booked book (refused (refusal_number refusal)) }
{
    let receipt = Receipt {
        number: refusal.number(),
        value: 0,
    };
    Booked { book, receipt }
}
