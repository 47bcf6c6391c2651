// Which slot expires first.
ghost use Rattle.std.specs.Prelude.{◌≡◌, ◌&&◌, ◌||◌, ℕ, leb, Some, is_none};
ghost use Rattle.table.specs.Fold.{if};
ghost use Rattle.stream.specs.Stream.{slots};
ghost use Rattle.stream.specs.Bounds.{Bounded};
ghost use Rattle.stream.specs.Choice.{expires_first};

use crate::Stream;
use time::Clock;

// The best so far, which is the other stream where there is one, or the stream at i if that has a slot and expires first.
pub fn better(
    best: Option<usize>,
    other: &Stream,
    i: usize,
    x: &Stream,
    worst: u32,
    h: Clock,
) -> Option<usize>
    requires { Bounded worst h.0 other.now × Bounded worst h.0 x.now }
    ensures { result ≡ if (leb 1 (slots worst h.0 x.now) && (is_none best || expires_first x.now other.now)) (Some i) best }
{
    if x.slots(worst, h) == 0 {
        return best;
    }
    if best.is_none() || expires_before(x, other) {
        Some(i)
    } else {
        best
    }
}

// Which of two streams loses a slot first: that whose r + c × p / g is least, and of equals that with the earlier deadline.
fn expires_before(a: &Stream, b: &Stream) -> bool
    requires { (worst : ℕ) × (h : ℕ) × Bounded worst h a.now × Bounded worst h b.now }
    ensures { result ≡ expires_first a.now b.now }
{
    let of_a = a.release.paced(a.charge, a.period, a.granted);
    let of_b = b.release.paced(b.charge, b.period, b.granted);
    let due = a.deadline < b.deadline;
    of_a.is_before(of_b) | (of_a.is(of_b) & due)
}
