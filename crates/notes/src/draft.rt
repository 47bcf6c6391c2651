// A line that is being read, byte by byte.
ghost use Rattle.std.specs.Prelude.{◌≡◌, true, ◌+◌, ◌*◌, ◌^◌, ◌<◌, SomeIff};
ghost use Rattle.notes.specs.Draft.{takes_name, blank, amiss, placed, is_name_kind, longer_if, lettered, valued, in_field, begun, is_gap, after_gap, after_field, with_byte};

// Where in a line its last byte stands: between fields, within one, in a comment, at a carriage return that may end the line,
// after one that does not, or where no right line can follow, because of the field that was begun last.
#[derive(Clone, Copy, Debug, PartialEq, Eq)]
pub enum Place {
    Between,
    Within,
    Comment,
    Returned,
    Stray,
    Amiss,
}

// A line so far: how many fields have begun, the letters of the first as digits to the base 256, and what the last field and the two before it are held as:
// a number, or a name in the same way.
#[derive(Clone, Copy)]
pub struct Draft {
    pub place: Place,
    pub fields: u64,
    pub word: u64,
    pub earlier: u64,
    pub before: u64,
    pub last: u64,
}

// What a word consists of: the letters of a name, or the digits of a number.
#[derive(Clone, Copy, Debug, PartialEq, Eq)]
pub enum Kind {
    Name,
    Number,
}

// The word that takes a name.
const ORDER: u64 = 0x6f_72_64_65_72;

impl Draft {
    // A line before its first byte.
    pub fn blank() -> Draft
        ensures { result ≡ blank }
    {
        Draft {
            place: Place::Between,
            fields: 0,
            word: 0,
            earlier: 0,
            before: 0,
            last: 0,
        }
    }

    // The line, of which no right one can come.
    fn amiss(self) -> Draft
        ensures { result ≡ amiss self }
    {
        self.at(Place::Amiss)
    }

    // The line with a byte more, which is not its newline.
    pub fn with(self, byte: u8) -> Draft
        ensures { result ≡ with_byte self byte }
    {
        let place = self.place;
        match place {
            Place::Between => self.after_gap(byte),
            Place::Within => self.after_field(byte),
            Place::Returned => self.at(Place::Stray),
            Place::Comment | Place::Stray | Place::Amiss => self,
        }
    }

    // A byte after a gap, or at the start.
    #[tactic(auto, using(file::proofs::Choices::choices), unfolding(crate::specs::Draft::after_gap))]
    fn after_gap(self, byte: u8) -> Draft
        ensures { result ≡ after_gap self byte }
    {
        if is_gap(byte) {
            return self;
        }
        if byte == b'#' {
            return self.at(Place::Comment);
        }
        if byte == b'\r' {
            return self.at(Place::Returned);
        }
        self.begun(byte)
    }

    // A byte after one of a field.
    #[tactic(auto, using(file::proofs::Choices::choices), unfolding(crate::specs::Draft::after_field))]
    fn after_field(self, byte: u8) -> Draft
        ensures { result ≡ after_field self byte }
    {
        if is_gap(byte) {
            return self.at(Place::Between);
        }
        if byte == b'#' {
            return self.at(Place::Comment);
        }
        if byte == b'\r' {
            return self.at(Place::Returned);
        }
        self.in_field(byte)
    }

    fn at(self, place: Place) -> Draft
        ensures { result ≡ placed self place }
    {
        Draft { place, ..self }
    }

    // The first byte of a field, before which the fields so far move up; a fifth one is too many.
    #[tactic(auto, using(file::proofs::Choices::choices), unfolding(crate::specs::Draft::begun))]
    fn begun(self, byte: u8) -> Draft
        ensures { result ≡ begun self byte }
    {
        if self.fields < 4 {
            let next = Draft {
                place: Place::Within,
                fields: self.fields + 1,
                earlier: self.before,
                before: self.last,
                last: 0,
                ..self
            };
            return next.in_field(byte);
        }
        Draft {
            place: Place::Amiss,
            fields: 5,
            ..self
        }
    }

    // A byte of the field that is being read: a letter in the first, and a letter or a digit in the others.
    #[tactic(auto, using(file::proofs::Choices::choices), unfolding(crate::specs::Draft::in_field))]
    fn in_field(self, byte: u8) -> Draft
        ensures { result ≡ in_field self byte }
    {
        if self.fields == 1 {
            return self.lettered(byte);
        }
        self.valued(byte)
    }

    // A letter more in the word.
    #[tactic(auto, using(file::proofs::Choices::choices), unfolding(crate::specs::Draft::lettered, crate::specs::Draft::longer_if))]
    fn lettered(self, byte: u8) -> Draft
        ensures { result ≡ lettered self byte }
    {
        match Kind::Name.longer(self.word, byte) {
            Some(word) => Draft {
                place: Place::Within,
                fields: 1,
                word,
                ..self
            },
            None => self.amiss(),
        }
    }

    // A letter or a digit more in the name or the number that is being read behind the word.
    #[tactic(auto, using(file::proofs::Choices::choices), unfolding(crate::specs::Draft::valued, crate::specs::Draft::longer_if))]
    fn valued(self, byte: u8) -> Draft
        ensures { result ≡ valued self byte }
    {
        match kind_behind(self.word).longer(self.last, byte) {
            Some(last) => Draft {
                place: Place::Within,
                last,
                ..self
            },
            None => self.amiss(),
        }
    }
}

// Whether a byte parts fields.
pub fn is_gap(byte: u8) -> bool
    ensures { result ≡ is_gap byte }
{
    (byte == b' ') | (byte == b'\t')
}

// Whether names stand behind a word, and not numbers.
#[tactic(auto, unfolding(crate::specs::Draft::takes_name, crate::specs::Draft::held_after, listing::specs::Line::ascii))]
pub(crate) fn takes_name(word: u64) -> bool
    ensures { result ≡ takes_name word }
{
    word == ORDER
}

// Which of the two stands behind a word.
fn kind_behind(word: u64) -> Kind
    ensures { is_name_kind result ≡ takes_name word }
{
    if takes_name(word) {
        Kind::Name
    } else {
        Kind::Number
    }
}

impl Kind {
    // What n is held as with a byte more, if that is a letter of a name or a digit of a number, and 64 bits have room for it.
    pub(crate) fn longer(self, n: u64, byte: u8) -> Option<u64>
        ensures { result ≡ longer_if (is_name_kind self) n byte }
    {
        match self {
            Kind::Name if byte.is_ascii_lowercase() => behind(n, 256, u64::from(byte)),
            Kind::Number if byte.is_ascii_digit() => behind(n, 10, u64::from(byte - b'0')),
            _ => None,
        }
    }
}

// A digit more behind a number to a base, if 64 bits have room for it; a letter is one to the base 256.
fn behind(n: u64, base: u64, digit: u64) -> Option<u64>
    ensures { SomeIff result (n * base + digit < 2 ^ 64) (n * base + digit) }
{
    n.checked_mul(base)?.checked_add(digit)
}
