// The load by groups of streams with one period: the span is divided once for each distinct period.
// Loops go over all eight places, since the compiler writes out a loop of a fixed length; one over the count takes more instructions.
ghost use Rattle.std.specs.Prelude.{◌≡◌, ◌/◌, ◌<◌, get_or};
ghost use Rattle.table.specs.Fold.{list_to};
ghost use Rattle.table.specs.Ranges.{streams_max};
ghost use Rattle.table.specs.Admission.{smallest_period, shares_of, load_of};
ghost use Rattle.table.specs.Groups.{first_with, group_at, grouped_shares};

use crate::Table;
use crate::parts::Judged;

// The sum of the groups' shares, and the largest of their quotients.
#[derive(Clone, Copy)]
struct Sums {
    shares: u64,
    largest: u64,
}

impl Judged {
    // The shares, and W times the quotient of the smallest period, which is the largest.
    pub(crate) fn load(self) -> u64
        ensures { result ≡ load_of self.table }
    {
        let sums = add_up(self);
        sums.shares + self.table.worst as u64 * sums.largest
    }

    // The shares alone.
    pub(crate) fn shares(self) -> u64
        ensures { result ≡ shares_of self.table }
    {
        add_up(self).shares
    }
}

// Each group's budgets times its quotient, added up, and the quotients compared.
fn add_up(judged: Judged) -> Sums
    ensures { (result.shares ≡ grouped_shares judged.table) × (result.largest ≡ judged.table.span / smallest_period judged.table) }
{
    let group = budgets(judged);
    let t = judged.table;
    let mut shares: u64 = 0;
    let mut largest: u64 = 0;
    for (j, &budget) in group.iter().enumerate() {
        // Where no group stands nothing is divided.
        if budget != 0 {
            let quotient = (t.span / t.period[j]) as u64;
            shares += budget * quotient;
            largest = largest.max(quotient);
        }
    }
    Sums { shares, largest }
}

// The granted budgets of each group, added up where it stands, and 0 at the other places.
fn budgets(judged: Judged) -> [u64; Table::STREAMS_MAX]
    ensures { result ≡ list_to (group_at judged.table) streams_max }
{
    let t = judged.table;
    let numbers = t.numbers();
    let mut budget = [0u64; Table::STREAMS_MAX];
    for (i, &reserved) in t.reserved.iter().enumerate() {
        if i < t.count {
            let first = first_with(t.period, i);
            budget[first] += numbers.granted(reserved);
        }
    }
    budget
}

// The first stream that has the period of stream i. That i is one of the eight is asked here alone, and the one loop that calls it has it.
fn first_with(period: [u32; Table::STREAMS_MAX], i: usize) -> usize
    requires { i < streams_max }
    ensures { result ≡ first_with (λ j. get_or period j 0) i }
{
    let own = period[i];
    period[..i].iter().position(|&p| p == own).unwrap_or(i)
}
