// What a message can quote of a line that is being read.
ghost use Rattle.std.specs.Prelude.{true, false, ◌≡◌, ltb, min, take};
ghost use Rattle.notes.specs.Heard.{kept, no_field, field_with, is_marked, heard_of, unheard, opens_at, is_end, heard_with};

use crate::draft::{Draft, Place, is_gap};
use crate::numbers::fits;

// A field: its first bytes, how many there are, and whether each is a digit. One that is longer than what is kept counts as one byte longer. That bound is in `field_with` and no ghost field, whose proof each record of specs/Heard would have to carry.
#[derive(Clone, Copy)]
pub struct Field {
    bytes: [u8; Field::KEPT],
    len: usize,
    pub digits: bool,
}

// The word of a line, the first of its numbers or names that is wrong, or else the last, and whether the last byte stands in one of them.
#[derive(Clone, Copy)]
pub struct Heard {
    pub word: Field,
    pub number: Field,
    pub inside: bool,
}

impl Field {
    pub const KEPT: usize = 20;

    // No byte of a field yet.
    fn none() -> Field
        ensures { result ≡ no_field }
    {
        Field {
            bytes: [0; Field::KEPT],
            len: 0,
            digits: true,
        }
    }

    // The field with a byte more.
    fn with(self, byte: u8) -> Field
        ensures { result ≡ field_with self byte }
    {
        let mut next = self;
        next.digits &= byte.is_ascii_digit();
        if Field::KEPT <= self.len {
            next.len = Field::KEPT + 1;
            return next;
        }
        next.bytes[self.len] = byte;
        next.len += 1;
        next
    }

    // What is kept of the field.
    pub fn start(&self) -> &[u8]
        ensures { result.now ≡ take (min self.now.len kept) self.now.bytes }
    {
        &self.bytes[..self.len.min(Field::KEPT)]
    }

    // Whether the field is longer.
    pub fn is_cut(self) -> bool
        ensures { result ≡ ltb kept self.len }
    {
        Field::KEPT < self.len
    }

    // Whether the field begins with a byte order mark.
    #[tactic(auto, using(crate::proofs::Faults::mark_test), unfolding(crate::specs::Heard::is_marked))]
    pub(crate) fn is_marked(self) -> bool
        ensures { result ≡ is_marked self }
    {
        self.bytes.starts_with(&[0xef, 0xbb, 0xbf])
    }
}

impl Heard {
    // Nothing of a line yet.
    pub(crate) fn none() -> Heard
        ensures { result ≡ unheard }
    {
        Heard {
            word: Field::none(),
            number: Field::none(),
            inside: false,
        }
    }

    // What is heard with a byte more of a line, which was this one before it.
    #[tactic(auto, using(file::proofs::Choices::choices), unfolding(crate::specs::Heard::heard_with, crate::specs::Heard::heard_in))]
    pub(crate) fn with(self, draft: Draft, byte: u8) -> Heard
        ensures { result ≡ heard_with self draft byte }
    {
        if is_end(byte) {
            return self.shut();
        }
        if self.inside {
            return if draft.fields == 1 {
                self.in_word(byte)
            } else {
                self.in_number(byte)
            };
        }
        if opens(draft) {
            let next = self.emptied();
            return if draft.fields == 0 {
                next.in_word(byte)
            } else {
                next.in_number(byte)
            };
        }
        self
    }

    // A byte more in the first field, the word.
    fn in_word(self, byte: u8) -> Heard
        ensures { result ≡ heard_of (field_with self.word byte) self.number true }
    {
        Heard {
            word: self.word.with(byte),
            inside: true,
            ..self
        }
    }

    // A byte more in the number or name behind it.
    fn in_number(self, byte: u8) -> Heard
        ensures { result ≡ heard_of self.word (field_with self.number byte) true }
    {
        Heard {
            number: self.number.with(byte),
            inside: true,
            ..self
        }
    }

    // The field that was open has ended.
    fn shut(self) -> Heard
        ensures { result ≡ heard_of self.word self.number false }
    {
        Heard {
            inside: false,
            ..self
        }
    }

    // No byte of the next number yet.
    fn emptied(self) -> Heard
        ensures { result ≡ heard_of self.word no_field false }
    {
        Heard {
            number: Field::none(),
            inside: false,
            ..self
        }
    }
}

// Whether a byte ends a field.
fn is_end(byte: u8) -> bool
    ensures { result ≡ is_end byte }
{
    is_gap(byte) | (byte == b'#') | (byte == b'\r')
}

// Whether a field that is kept begins with the next byte that ends none.
#[tactic(auto, using(crate::proofs::Faults::between_test))]
fn opens(draft: Draft) -> bool
    ensures { result ≡ opens_at draft.place draft }
{
    (draft.place == Place::Between) & fits(draft)
}
