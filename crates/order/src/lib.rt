// The order in which a turn takes the requests of one deadline.
#![tactic(auto)]

ghost use Rattle.std.specs.Prelude.{◌≡◌, true, OkIff};
ghost use Rattle.order.specs.Order.{order_number, is_order, order_of, distance, swept_before, goes_before};

// The place nearest the head first; or the places from the head on upwards, and then those below it.
#[derive(Clone, Copy, Debug, PartialEq, Eq)]
pub enum Order {
    Nearest,
    Sweep,
}

// A number is that of no order.
#[derive(Clone, Copy, Debug, PartialEq, Eq)]
pub struct UnknownOrder;

impl Order {
    // The number by which files and images carry it.
    pub fn number(self) -> u64
        ensures { result ≡ order_number self }
    {
        match self {
            Order::Nearest => 0,
            Order::Sweep => 1,
        }
    }

    // Whether a number is that of an order.
    pub fn is_number(number: u64) -> bool
        ensures { result ≡ is_order number }
    {
        Order::try_from(number).is_ok()
    }

    // The order of a number; of one that has none, nearest.
    #[tactic(auto, using(crate::proofs::Orders::nearest_else))]
    pub fn of_number(number: u64) -> Order
        ensures { result ≡ order_of number }
    {
        Order::try_from(number).unwrap_or(Order::Nearest)
    }

    // Whether one place is taken before another, as the head stands.
    pub fn goes_before(self, head: u64, a: u64, b: u64) -> bool
        ensures { result ≡ goes_before self head a b }
    {
        match self {
            Order::Nearest => distance(head, a) < distance(head, b),
            Order::Sweep => swept_before(head, a, b),
        }
    }
}

// The order of a number.
impl TryFrom<u64> for Order {
    type Error = UnknownOrder;

    ghost try_from_gives = { λ number result. OkIff result (is_order number ≡ true) (order_of number) };

    fn try_from(number: u64) -> Result<Order, UnknownOrder> {
        match number {
            0 => Ok(Order::Nearest),
            1 => Ok(Order::Sweep),
            _ => Err(UnknownOrder),
        }
    }
}

// How far a place is from the head.
fn distance(head: u64, place: u64) -> u64
    ensures { result ≡ distance head place }
{
    head.abs_diff(place)
}

// Whether a sweep takes one place before another: those not below the head first, and of either the smaller.
fn swept_before(head: u64, a: u64, b: u64) -> bool
    ensures { result ≡ swept_before head a b }
{
    if a < head {
        (b < head) & (a < b)
    } else {
        (b < head) | (a < b)
    }
}
