// Which request the house sends: one search, by the order that it is handed.
ghost use Rattle.std.specs.Prelude.{◌≡◌, ◌≤◌};
ghost use Rattle.order.specs.Order.{goes_before};
ghost use Rattle.stream.specs.Bounds.{Bounded};
ghost use Rattle.stream.specs.Stream.{queue_max};
ghost use Rattle.stream.specs.Search.{lead, foremost, considered};

use crate::Stream;
use order::Order;
use time::Clock;

// A request of a queue, and its place.
#[derive(Clone, Copy)]
pub struct Lead {
    pub index: usize,
    pub place: u64,
}

// The request that would be sent of the streams passed so far.
#[derive(Clone, Copy)]
pub struct Pick {
    pub stream: usize,
    pub index: usize,
    pub deadline: Clock,
    pub place: u64,
}

// The better of the best so far, if there is one, and one more stream's request; of equals the first stays.
// W, the horizon, the order and the head are the session's own fields, from which it hands them on: a struct of four of them would be made for this call alone.
pub fn consider(
    best: Option<Pick>,
    x: &Stream,
    i: usize,
    worst: u32,
    h: Clock,
    order: Order,
    head: u64,
) -> Option<Pick>
    requires { Bounded worst h.0 x.now }
    ensures { result ≡ considered worst h.0 (goes_before order head) best x.now i }
{
    let m = x.filled(worst, h);
    if m == 0 {
        return best;
    }
    let request = leading(order, head, &x.places, m);
    let pick = Pick {
        stream: i,
        index: request.index,
        deadline: x.deadline,
        place: request.place,
    };
    let Some(first) = best else {
        return Some(pick);
    };
    let sooner = pick.deadline < first.deadline;
    let same = pick.deadline == first.deadline;
    let ahead = order.goes_before(head, pick.place, first.place);
    if sooner | (same & ahead) {
        Some(pick)
    } else {
        best
    }
}

// Of the first m places the one that goes first; of equals the first.
fn leading(order: Order, head: u64, places: &[u64; Stream::QUEUE_MAX], m: usize) -> Lead
    requires { m ≤ queue_max }
    ensures { result ≡ lead (goes_before order head) places.now m }
{
    let mut best = Lead {
        index: 0,
        place: places[0],
    };
    for (j, place) in places[..m].iter().enumerate() {
        best = foremost(order, head, best, j, *place);
    }
    best
}

// The best so far, or one more place where that goes before it; of equals the first stays.
fn foremost(order: Order, head: u64, best: Lead, j: usize, place: u64) -> Lead
    ensures { result ≡ foremost (goes_before order head) best j place }
{
    if order.goes_before(head, place, best.place) {
        Lead { index: j, place }
    } else {
        best
    }
}
