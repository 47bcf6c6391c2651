// What crosses to C and Rust: structs of numbers, with their fields in order.
ghost use Rattle.std.specs.Prelude.{◌≡◌, true, OkIff};
ghost use Rattle.order.specs.Order.{is_order, order_of};
ghost use Rattle.shelf.specs.Image.{session_of, image_of, opening_as, moment_as};
ghost use Rattle.shelf.specs.Filed.{read_as, written_as};

use file::{Layout, Refusal};
use order::{Order, UnknownOrder};
use session::{Opened, Session};
use stream::Stream;
use table::{Margin, Table};
use time::{Clock, Remainders};

// A session. The order is a number, 0 nearest or 1 sweep; another one stands for none. The four numbers of 32 bits come first, so that no byte is padding.
#[repr(C)]
#[derive(Clone, Copy, Debug, PartialEq, Eq)]
pub struct Image {
    pub worst: u32,
    pub span: u32,
    pub padding: u32,
    pub tag: u32,
    pub order: u64,
    pub count: usize,
    pub margin: Margin,
    pub horizon: Clock,
    pub remainders: Remainders,
    pub clock: Clock,
    pub head: u64,
    pub served: usize,
    pub place: u64,
    pub streams: [Stream; Table::STREAMS_MAX],
}

// A reply: its number, the stream that it is about, its value, and the tag of the request sent or done.
#[repr(C)]
#[derive(Clone, Copy, Debug, PartialEq, Eq)]
pub struct Told {
    pub number: u64,
    pub stream: u64,
    pub value: u64,
    pub tag: u32,
}

// A session that was opened, and 0, with its margin; or the refusal, with the margin where it is 7 and else 0, and the all-zero session.
#[repr(C)]
#[derive(Clone, Copy, Debug, PartialEq, Eq)]
pub struct Opening {
    pub number: u64,
    pub margin: Margin,
    pub session: Image,
}

// The latest safe moment, and 0; or the refusal, and 0.
#[repr(C)]
#[derive(Clone, Copy, Debug, PartialEq, Eq)]
pub struct Moment {
    pub number: u64,
    pub at: u64,
}

// The parts of a session file, its order and the length of its third body, and 0; or the refusal, and zeros.
#[repr(C)]
#[derive(Clone, Copy, Debug, PartialEq, Eq)]
pub struct Filed {
    pub number: u64,
    pub count: usize,
    pub start: usize,
    pub end: usize,
    pub events: usize,
    pub order: u64,
    pub third: u64,
}

// How long the file is that was written, and 0; or the refusal, and 0.
#[repr(C)]
#[derive(Clone, Copy, Debug, PartialEq, Eq)]
pub struct Wrote {
    pub number: u64,
    pub length: usize,
}

impl From<Session> for Image {
    ghost from_gives = { λ session image. image ≡ image_of session };

    fn from(session: Session) -> Image {
        let streams = session.streams;
        Image {
            worst: session.worst,
            span: session.span,
            padding: session.padding,
            tag: session.tag,
            order: session.order.number(),
            count: session.count,
            margin: session.margin,
            horizon: session.horizon,
            remainders: session.remainders,
            clock: session.clock,
            head: session.head,
            served: session.served,
            place: session.place,
            streams,
        }
    }
}

impl Image {
    // The session that the numbers stand for; where its order is that of none, the order is nearest.
    pub fn session(self) -> Session
        ensures { result ≡ session_of self }
    {
        self.session_by(Order::of_number(self.order))
    }

    // The same, by the order that its number stands for.
    fn session_by(self, order: Order) -> Session
        requires { order ≡ order_of self.order }
        ensures { result ≡ session_of self }
    {
        let streams = self.streams;
        Session {
            order,
            worst: self.worst,
            span: self.span,
            padding: self.padding,
            tag: self.tag,
            count: self.count,
            margin: self.margin,
            horizon: self.horizon,
            remainders: self.remainders,
            clock: self.clock,
            head: self.head,
            served: self.served,
            place: self.place,
            streams,
        }
    }
}

// The session that the numbers stand for, if its order is one.
impl TryFrom<Image> for Session {
    type Error = UnknownOrder;

    ghost try_from_gives = { λ image result. OkIff result (is_order image.order ≡ true) (session_of image) };

    fn try_from(image: Image) -> Result<Session, UnknownOrder> {
        let order = Order::try_from(image.order)?;
        Ok(image.session_by(order))
    }
}

impl From<Opened> for Opening {
    ghost from_gives = { λ opened opening. opening ≡ opening_as opened };

    fn from(opened: Opened) -> Opening {
        let (number, margin) = match opened.admission {
            Ok(margin) => (0, margin),
            Err(refusal) => (refusal.number(), refusal.margin()),
        };
        Opening {
            number,
            margin,
            session: Image::from(opened.session),
        }
    }
}

impl From<Option<Clock>> for Moment {
    ghost from_gives = { λ latest moment. moment ≡ moment_as latest };

    fn from(latest: Option<Clock>) -> Moment {
        match latest {
            Some(until) => Moment {
                number: 0,
                at: until.micros(),
            },
            None => Moment {
                number: calls::Refusal::Unsound.number(),
                at: 0,
            },
        }
    }
}

impl From<Result<Layout, Refusal>> for Filed {
    ghost from_gives = { λ reading filed. filed ≡ read_as reading };

    fn from(reading: Result<Layout, Refusal>) -> Filed {
        match reading {
            Ok(layout) => Filed {
                number: 0,
                count: layout.count,
                start: layout.start,
                end: layout.end,
                events: layout.events,
                order: layout.order.number(),
                third: layout.form.third(),
            },
            Err(refusal) => Filed {
                number: refusal.number(),
                count: 0,
                start: 0,
                end: 0,
                events: 0,
                order: 0,
                third: 0,
            },
        }
    }
}

impl From<Result<usize, Refusal>> for Wrote {
    ghost from_gives = { λ writing wrote. wrote ≡ written_as writing };

    fn from(writing: Result<usize, Refusal>) -> Wrote {
        match writing {
            Ok(length) => Wrote { number: 0, length },
            Err(refusal) => Wrote {
                number: refusal.number(),
                length: 0,
            },
        }
    }
}
