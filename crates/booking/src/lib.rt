// A booking table, into which two desks book streams before it is opened.
#![tactic(auto)]

mod bookings;
mod lent;
mod refusal;
mod soundness;

ghost use Rattle.std.specs.Prelude.{◌≡◌, true, ◌≤◌, ◌<◌};
ghost use Rattle.table.specs.Ranges.{streams_max};
ghost use Rattle.table.specs.Admission.{judged_shares};
ghost use Rattle.table.specs.Reservations.{records_of};
ghost use Rattle.booking.specs.Book.{numbers_of, with_desk, streams_of, streams_in, count_in, table_with, table_in, sound_cells};
ghost use Rattle.booking.specs.Bookings.{empty_desk, with_stream, without_stream};

use table::{Numbers, Records, Reservation, Table, closed_up};

// What one desk has booked, and the limit on the sum of its streams' shares. Of its eight cells the first `count` are used, in order of booking; the others are 0. A count beside fixed cells, as C has them.
#[repr(C)]
#[derive(Clone, Copy, Debug, Default, PartialEq, Eq)]
pub struct Desk {
    pub limit: u64,
    pub count: usize,
    pub streams: [Reservation; Table::STREAMS_MAX],
}

// The numbers of the whole table, and both desks. The cell `unused` is 0, and is there so that no byte is padding.
#[repr(C)]
#[derive(Clone, Copy, Debug, Default, PartialEq, Eq)]
pub struct Book {
    pub worst: u32,
    pub span: u32,
    pub padding: u32,
    pub unused: u32,
    pub first: Desk,
    pub second: Desk,
}

// The reply to a booking: 0 and how many streams the desk has then, or the number of a refusal and 0. Numbers, as C has them.
#[repr(C)]
#[derive(Clone, Copy, Debug, Default, PartialEq, Eq)]
pub struct Receipt {
    pub number: u64,
    pub value: u64,
}

// What a booking comes to.
#[derive(Clone, Copy, Debug, PartialEq, Eq)]
pub struct Booked {
    pub book: Book,
    pub receipt: Receipt,
}

// The streams of a finished table, as opening takes them, and 0; or 31, and none. Numbers, as C has them.
#[repr(C)]
#[derive(Clone, Copy, Debug, Default, PartialEq, Eq)]
pub struct Finished {
    pub number: u64,
    pub records: Records,
}

// What finishing comes to: the table is what it was.
#[derive(Clone, Copy, Debug, PartialEq, Eq)]
pub struct Closed {
    pub book: Book,
    pub finished: Finished,
}

// A booking of a desk, which is 1 or 2: a stream more, or the one less that has this number among its own, counted from 1.
#[derive(Clone, Copy, Debug, PartialEq, Eq)]
pub enum Booking {
    Add {
        desk: u64,
        reserved: u32,
        period: u32,
    },
    Withdraw {
        desk: u64,
        number: u64,
    },
}

impl Desk {
    // A desk that has booked nothing.
    fn empty(limit: u64) -> Desk
        ensures { result ≡ empty_desk limit }
    {
        Desk {
            limit,
            ..Desk::default()
        }
    }

    // The desk with a stream more, behind the others.
    fn with_stream(self, stream: Reservation) -> Desk
        requires { self.count < streams_max }
        ensures { result ≡ with_stream self stream.reserved stream.period }
    {
        let mut desk = self;
        desk.streams[self.count] = stream;
        desk.count += 1;
        desk
    }

    // The desk without the stream of this number: those behind it close up.
    fn without_stream(self, number: u64) -> Desk
        requires { (1 ≤ number) × (number ≤ self.count) × (self.count ≤ streams_max) }
        ensures { result ≡ without_stream self number }
    {
        Desk {
            limit: self.limit,
            count: self.count - 1,
            streams: closed_up(Reservation::default(), self.streams, number as usize - 1),
        }
    }

    // Its own streams, as a table takes them.
    fn records(self) -> Records
        requires { sound_cells self ≡ true }
        ensures { result ≡ records_of (streams_of self) }
    {
        let rows = self.streams;
        Records {
            rows,
            count: self.count,
        }
    }
}

impl Book {
    // W, H and k.
    pub fn numbers(self) -> Numbers
        ensures { result ≡ numbers_of self }
    {
        Numbers {
            worst: self.worst,
            span: self.span,
            padding: self.padding,
        }
    }

    // The same table, of which that desk is another.
    fn with_desk(self, desk: u64, new: Desk) -> Book
        ensures { result ≡ with_desk self desk new }
    {
        let mut book = self;
        if desk == 1 {
            book.first = new;
        } else {
            book.second = new;
        }
        book
    }

    // How many streams there are.
    fn count(self) -> usize
        requires { (self.first.count ≤ streams_max) × (self.second.count ≤ streams_max) }
        ensures { result ≡ count_in self }
    {
        self.first.count + self.second.count
    }

    // All streams, desk 1's first and then desk 2's, as opening takes them.
    // It asks the same as `table` and `table_refusal`: a struct that keeps it would have to be made by each caller, from other tests each time.
    fn records(self) -> Records
        requires { (sound_cells self.first ≡ true) × (sound_cells self.second ≡ true) × (count_in self ≤ streams_max) }
        ensures { result ≡ records_of (streams_in self) }
    {
        let second = self.second;
        let at = self.first.count;
        let count = self.count();
        let mut rows = self.first.streams;
        rows[at..count].copy_from_slice(&second.streams[..second.count]);
        Records { rows, count }
    }

    // The sum of a desk's own shares, where 1 to 6 refuse no table of its streams, and else 0.
    fn shares(self, desk: Desk) -> u64
        requires { sound_cells desk ≡ true }
        ensures { result ≡ judged_shares (table_with self (streams_of desk)) }
    {
        Table::of(self.numbers(), desk.records()).shares()
    }

    // The table of all streams.
    fn table(self) -> Table
        requires { (sound_cells self.first ≡ true) × (sound_cells self.second ≡ true) × (count_in self ≤ streams_max) }
        ensures { result ≡ table_in self }
    {
        Table::of(self.numbers(), self.records())
    }
}
