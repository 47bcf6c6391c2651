// A word that is read whole.
ghost use Rattle.std.specs.Prelude.{◌≡◌};
ghost use Rattle.notes.specs.Draft.{is_name_kind};
ghost use Rattle.notes.specs.Words.{read_as};

use crate::draft::Kind;

// What a name or a number is held as, if a word is one and 64 bits have room for it.
pub fn read_as(kind: Kind, word: &[u8]) -> Option<u64>
    ensures { result ≡ read_as (is_name_kind kind) word.now }
{
    let mut n: u64 = 0;
    for byte in word {
        n = kind.longer(n, *byte)?;
    }
    Some(n)
}
