// Numbers of four bytes, each of which is a u32.
ghost use Rattle.std.specs.Prelude.{◌≡◌};
ghost use Rattle.std.proofs.lemmas.List.Edits.{sets};
ghost use Rattle.cells.specs.Cells.{cell, number_at};

use cells::{number_at, put_number};

// The number in the four bytes from an index on.
#[tactic(auto, using(cells::proofs::Numbers::number_lt))]
pub(crate) fn word_at(bytes: &[u8], at: usize) -> u32
    ensures { result ≡ number_at 4 bytes.now at }
{
    number_at(bytes, at, 4) as u32
}

// Stores a number in the four bytes from an index on.
pub(crate) fn put_word(out: &mut [u8], at: usize, word: u32)
    ensures { out.new ≡ sets out.old at (cell 4 word) }
{
    put_number(out, at, 4, u64::from(word));
}
