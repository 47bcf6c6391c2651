// Why a booking is refused.
ghost use Rattle.std.specs.Prelude.{◌≡◌};
ghost use Rattle.booking.specs.Refusal.{refusal_number};
ghost use Rattle.booking.specs.declared.refusal.Refusal.TheVariants.{Table};

// What the table says; a sum above the desk's limit; a desk that has no stream of the number; no desk; and a table that is not sound.
#[derive(Clone, Copy, Debug, PartialEq, Eq)]
pub(crate) enum Refusal {
    Table(table::Refusal),
    Limit,
    Stream,
    Desk,
    Unsound,
}

impl Refusal {
    // The number by which it is told: 1 to 7, 18, 19, 30 and 31.
    pub(crate) fn number(self) -> u64
        ensures { result ≡ refusal_number self }
    {
        match self {
            Refusal::Table(refusal) => refusal.number(),
            Refusal::Limit => 18,
            Refusal::Stream => 19,
            Refusal::Desk => 30,
            Refusal::Unsound => 31,
        }
    }
}

impl From<table::Refusal> for Refusal {
    ghost from_gives = { λ refusal own. own ≡ Table refusal };

    fn from(refusal: table::Refusal) -> Refusal {
        Refusal::Table(refusal)
    }
}
