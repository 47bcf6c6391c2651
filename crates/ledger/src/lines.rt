// The lines of a file of bookings: where each ends, and whether it may stand where it stands.
ghost use Rattle.std.specs.Prelude.{◌≡◌, ◌≤◌, eqb, length};
ghost use Rattle.std.specs.List.{position, position_or_len};
ghost use Rattle.ledger.specs.Ledger.{line_end, stands, begins, judged_of};

use crate::{Entry, Fault, entry_of};

// The index of the first of a text's bytes that is this one, or how long the text is.
pub(crate) fn first_of(text: &[u8], byte: u8) -> usize
    ensures value { result ≡ position_or_len (λ b. eqb b byte) text.now }
    ensures within { result ≤ length text.now }
{
    place_of(text, byte).unwrap_or(text.len())
}

fn place_of(text: &[u8], byte: u8) -> Option<usize>
    ensures { result ≡ position (λ b. eqb b byte) text.now }
{
    text.iter().position(|b| *b == byte)
}

// Where the line ends that goes on at an index: at the first newline from there on, or at the end of the file.
pub fn line_end(file: &[u8], start: usize) -> usize
    ensures value { result ≡ line_end file.now start }
    ensures upper_bound { (result ≤ length file.now) × (start ≤ length file.now → start ≤ result) }
{
    let start = start.min(file.len());
    start + first_of(&file[start..], b'\n')
}

// Judges a file line by line, each by its number, which is counted from 1.
pub fn judge(file: &[u8]) -> Result<(), Fault>
    ensures { result ≡ judged_of file.now }
{
    let mut begun = false;
    for (i, line) in file.split(|byte| *byte == b'\n').enumerate() {
        let entry = entry_of(line);
        if !stands(begun, entry) {
            return Err(Fault::Amiss {
                line: i as u64 + 1,
                begun,
            });
        }
        begun = begins(begun, entry);
    }
    if begun { Ok(()) } else { Err(Fault::Unbegun) }
}

// Whether a line may stand where a table is begun, or is not: it is begun first, and once.
fn stands(begun: bool, entry: Entry) -> bool
    ensures { result ≡ stands begun entry }
{
    match entry {
        Entry::Blank => true,
        Entry::Begin { .. } => !begun,
        Entry::Call(_) => begun,
        Entry::Wrong => false,
    }
}

// Whether a table is begun after it.
fn begins(begun: bool, entry: Entry) -> bool
    ensures { result ≡ begins begun entry }
{
    matches!(entry, Entry::Begin { .. }) | begun
}
