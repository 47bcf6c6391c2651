// A line that is read word by word.
ghost use Rattle.std.specs.Prelude.{◌≡◌, [], ◌∷◌, Some};
ghost use Rattle.ledger.specs.Entry.{numbers_entry};
ghost use Rattle.ledger.specs.Phrase.{with_word, with_part, fields_entry};

use crate::Entry;
use booking::Booking;
use notes::{Kind, read_as};

// The words so far: how many there are, and what they are held as; the first is the name, and the others are numbers. There is no heap, so the cells have a length beside them.
#[derive(Clone, Copy, Default)]
pub(crate) struct Phrase {
    words: usize,
    held: [u64; Phrase::WORDS_MOST],
}

impl Phrase {
    // A name, and at most the five numbers of a beginning.
    const WORDS_MOST: usize = 6;

    // What stands between two gaps is a word more, if anything does.
    #[tactic(auto, using(crate::proofs::Phrases::no_part, crate::proofs::Phrases::some_part))]
    pub(crate) fn with(self, part: &[u8]) -> Option<Phrase>
        ensures { result ≡ with_part self part.now }
    {
        if part.is_empty() {
            return Some(self);
        }
        self.with_word(part)
    }

    // A word more, if it may stand there.
    #[tactic(auto, using(file::proofs::Choices::choices), unfolding(crate::specs::Phrase::with_word))]
    fn with_word(self, word: &[u8]) -> Option<Phrase>
        ensures { result ≡ with_word self word.now }
    {
        if Phrase::WORDS_MOST <= self.words {
            return None;
        }
        let kind = if self.words == 0 {
            Kind::Name
        } else {
            Kind::Number
        };
        let mut next = self;
        next.held[self.words] = read_as(kind, word)?;
        next.words += 1;
        Some(next)
    }

    // The line that the words make, by how many there are.
    #[tactic(auto, using(file::proofs::Choices::choices), unfolding(crate::specs::Phrase::fields_entry))]
    pub(crate) fn entry(self) -> Entry
        ensures { result ≡ fields_entry self }
    {
        let [word, a, b, c, d, e] = self.held;
        match self.words {
            0 => Entry::Blank,
            3 => withdrawing(word, a, b),
            4 => adding(word, a, b, c),
            6 => beginning(word, a, b, c, d, e),
            _ => Entry::Wrong,
        }
    }
}

// "withdraw", as it is held.
const WITHDRAW: u64 = 0x77_69_74_68_64_72_61_77;

// "add".
const ADD: u64 = 0x61_64_64;

// "begin".
const BEGIN: u64 = 0x62_65_67_69_6e;

#[tactic(auto, using(file::proofs::Choices::choices), unfolding(notes::specs::Draft::held_after, listing::specs::Line::ascii))]
fn withdrawing(word: u64, desk: u64, number: u64) -> Entry
    ensures { result ≡ numbers_entry word (desk ∷ number ∷ []) }
{
    if word == WITHDRAW {
        return Entry::Call(Booking::Withdraw { desk, number });
    }
    Entry::Wrong
}

#[tactic(auto, using(file::proofs::Choices::choices), unfolding(notes::specs::Draft::held_after, listing::specs::Line::ascii))]
fn adding(word: u64, desk: u64, reserved: u64, period: u64) -> Entry
    ensures { result ≡ numbers_entry word (desk ∷ reserved ∷ period ∷ []) }
{
    match (word, u32::try_from(reserved), u32::try_from(period)) {
        (ADD, Ok(reserved), Ok(period)) => Entry::Call(Booking::Add {
            desk,
            reserved,
            period,
        }),
        _ => Entry::Wrong,
    }
}

#[tactic(auto, using(file::proofs::Choices::choices), unfolding(notes::specs::Draft::held_after, listing::specs::Line::ascii))]
fn beginning(word: u64, worst: u64, span: u64, padding: u64, limit1: u64, limit2: u64) -> Entry
    ensures { result ≡ numbers_entry word (worst ∷ span ∷ padding ∷ limit1 ∷ limit2 ∷ []) }
{
    match (
        word,
        u32::try_from(worst),
        u32::try_from(span),
        u32::try_from(padding),
    ) {
        (BEGIN, Ok(worst), Ok(span), Ok(padding)) => Entry::Begin {
            worst,
            span,
            padding,
            limit1,
            limit2,
        },
        _ => Entry::Wrong,
    }
}
