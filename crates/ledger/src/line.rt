// A line of a file of bookings.
ghost use Rattle.std.specs.Prelude.{◌≡◌, [], Some};
ghost use Rattle.notes.specs.Words.{unreturned, uncommented, words_after};
ghost use Rattle.ledger.specs.Entry.{entry_of};
ghost use Rattle.ledger.specs.Phrase.{no_words, with_words};

use crate::Entry;
use crate::lines::first_of;
use crate::phrase::Phrase;
use notes::is_gap;

// What a line says.
pub fn entry_of(line: &[u8]) -> Entry
    ensures { result ≡ entry_of line.now }
{
    match phrase_of(uncommented(unreturned(line))) {
        Some(phrase) => phrase.entry(),
        None => Entry::Wrong,
    }
}

// A line without a carriage return at its end.
fn unreturned(line: &[u8]) -> &[u8]
    ensures { result.now ≡ unreturned line.now }
{
    line.strip_suffix(b"\r").unwrap_or(line)
}

// A line without its comment, which begins at #.
fn uncommented(line: &[u8]) -> &[u8]
    ensures { result.now ≡ uncommented line.now }
{
    &line[..first_of(line, b'#')]
}

// The words of what counts of a line, parted by gaps, if each of them may stand there.
// Byte by byte: the library's `split` takes nearly twice the instructions where most bytes are gaps.
fn phrase_of(text: &[u8]) -> Option<Phrase>
    ensures { result ≡ with_words (Some no_words) (words_after [] text.now) }
{
    let mut phrase = Phrase::default();
    let mut start: usize = 0;
    for (i, byte) in text.iter().enumerate() {
        if is_gap(*byte) {
            phrase = phrase.with(&text[start..i])?;
            start = i + 1;
        }
    }
    phrase.with(&text[start..])
}
