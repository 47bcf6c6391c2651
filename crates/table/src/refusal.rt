// Why a table is refused.
ghost use Rattle.std.specs.Prelude.{◌≡◌};
ghost use Rattle.table.specs.Refusal.{refusal_number};
ghost use Rattle.table.specs.Margin.{refusal_margin, over_of};

use crate::Margin;

// Its number of streams; W, H and k outside their ranges; a stream's period, and its budget; and a load over the span, with the margin, which is below 0.
#[derive(Clone, Copy, Debug, PartialEq, Eq)]
pub enum Refusal {
    Streams,
    Worst,
    Span,
    Padding,
    Period,
    Budget,
    Load(Margin),
}

impl Refusal {
    // The number by which it is told: 1 to 7.
    pub fn number(self) -> u64
        ensures { result ≡ refusal_number self }
    {
        match self {
            Refusal::Streams => 1,
            Refusal::Worst => 2,
            Refusal::Span => 3,
            Refusal::Padding => 4,
            Refusal::Period => 5,
            Refusal::Budget => 6,
            Refusal::Load(_) => 7,
        }
    }

    // The margin: 1 to 6 carry 0.
    pub fn margin(self) -> Margin
        ensures { result ≡ refusal_margin self }
    {
        match self {
            Refusal::Load(margin) => margin,
            _ => Margin::default(),
        }
    }

    // The amount over the span: 0 where the load is not judged.
    pub fn over(self) -> u64
        ensures { result ≡ over_of (refusal_margin self).0 }
    {
        self.margin().over()
    }
}
