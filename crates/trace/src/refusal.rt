// Why a session file does not run.
ghost use Rattle.std.specs.Prelude.{◌≡◌};
ghost use Rattle.trace.specs.Refusal.{refusal_number, refusal_over};
ghost use Rattle.trace.specs.declared.refusal.Refusal.TheVariants.{File, Table};

// Reading refuses it, or opening its table does.
#[derive(Clone, Copy, Debug, PartialEq, Eq)]
pub enum Refusal {
    File(file::Refusal),
    Table(table::Refusal),
}

impl Refusal {
    // The number by which it is told.
    pub fn number(self) -> u64
        ensures { result ≡ refusal_number self }
    {
        match self {
            Refusal::File(refusal) => refusal.number(),
            Refusal::Table(refusal) => refusal.number(),
        }
    }

    // The amount over the span, where the load is; else 0.
    pub fn over(self) -> u64
        ensures { result ≡ refusal_over self }
    {
        match self {
            Refusal::File(_) => 0,
            Refusal::Table(refusal) => refusal.over(),
        }
    }
}

impl From<file::Refusal> for Refusal {
    ghost from_gives = { λ refusal result. result ≡ File refusal };

    fn from(refusal: file::Refusal) -> Refusal {
        Refusal::File(refusal)
    }
}

impl From<table::Refusal> for Refusal {
    ghost from_gives = { λ refusal result. result ≡ Table refusal };

    fn from(refusal: table::Refusal) -> Refusal {
        Refusal::Table(refusal)
    }
}
