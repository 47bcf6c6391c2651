// Whole numbers of either sign, in 64 bits.
ghost use Rattle.std.specs.Prelude.{◌≡◌};
ghost use Rattle.table.specs.Whole.{above_zero, below_zero};

// How far a number is above 0, and 0 where it is not.
pub fn above_zero(n: i64) -> u64
    ensures { result ≡ above_zero n }
{
    n.max(0).unsigned_abs()
}

// How far a number is below 0, and 0 where it is not.
pub fn below_zero(n: i64) -> u64
    ensures { result ≡ below_zero n }
{
    n.min(0).unsigned_abs()
}
