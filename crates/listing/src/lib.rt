// The lines that the programs print, as bytes. Any numbers have a line.
#![tactic(auto)]

ghost use Rattle.std.specs.Prelude.{◌≡◌, [], ◌∷◌, ◌++◌, map, ◌+◌, ◌≤◌, length, eqb};
ghost use Rattle.listing.specs.Line.{decimal, onward, header_fields, event_fields, worded_fields, refused_fields, tally_header_fields, tally_fields, total_fields, accepted_fields, place_fields, receipt_fields, text_size, text_holding, text_of};

use std::marker::Model;

// A printed line: the first `len` bytes. Those after them are 0.
#[derive(Clone, Copy)]
pub struct Text {
    bytes: [u8; Text::SIZE],
    len: usize,
}

// A contract sees the bytes of the line.
impl Model for Text {
    ghost use Rattle.std.specs.Prelude.{◌≡◌, List, ℕ, ◌-◌, ◌≤◌, ◌++◌, length, replicate};
    ghost use Rattle.std.proofs.Common.{sym, ap, ◌∙◌, subst, length-take-le, take-append-drop};

    ghost Value = { List ℕ };

    ghost use Rattle.listing.specs.Line.{text_size};
    ghost use Rattle.listing.specs.Text.{used, text_keeping, IsText};

    ghost view = { used };

    ghost invariant = { IsText };

    ghost inverse = { text_keeping };

    ghost inverse_ok = { λ text is.
        let within : text.len ≤ length text.bytes = subst (λ n. text.len ≤ n) (sym is.size) is.within in
        let as_long : length (used text) ≡ text.len = length-take-le text.len text.bytes within in
        let zeros : used text ++ replicate (text_size - text.len) 0 ≡ text.bytes =
        ap (λ rest. used text ++ rest) (sym is.unused) ∙ take-append-drop text.len text.bytes in
        λ i. record {
          bytes = (ap (λ n. used text ++ replicate (text_size - n) 0) as_long ∙ zeros) i;
          len = as_long i;
        } };
}

impl Text {
    // Room for six numbers of 64 bits.
    pub const SIZE: usize = 128;

    // How much of a word, and how many numbers behind it, a text has room for.
    pub const WORD_MOST: usize = 20;

    pub const NUMBERS_MOST: usize = 5;

    // How many digits a number of 64 bits has at most.
    const DIGITS_MOST: usize = 20;

    // The text with nothing in it.
    pub fn empty() -> Text
        ensures { result ≡ [] }
    {
        Text {
            bytes: [0; Text::SIZE],
            len: 0,
        }
    }

    pub fn as_bytes(&self) -> &[u8]
        ensures value { result.now ≡ self.now }
        ensures within { length self.now ≤ text_size }
    {
        &self.bytes[..self.len]
    }

    pub fn is_empty(&self) -> bool
        ensures { result ≡ eqb (length self.now) 0 }
    {
        self.len == 0
    }

    // Puts bytes behind the line so far.
    fn put(&mut self, run: &[u8])
        requires { length self.old + length run.now ≤ text_size }
        ensures { self.new ≡ self.old ++ run.now }
    {
        let end = self.len + run.len();
        let bytes = &mut self.bytes[..];
        bytes[self.len..end].copy_from_slice(run);
        self.len = end;
    }

    // Puts the digits of n behind it. They are found from the last one on.
    fn put_decimal(&mut self, n: u64)
        requires { length self.old + length (decimal n) ≤ text_size }
        ensures { self.new ≡ self.old ++ decimal n }
    {
        let mut digits = [b'0'; Text::DIGITS_MOST];
        let mut start = Text::DIGITS_MOST;
        let mut rest = n;
        // No count: what is left of the number has digits to give.
        while 10 <= rest {
            start -= 1;
            digits[start] = b'0' + (rest % 10) as u8;
            rest /= 10;
        }
        start -= 1;
        digits[start] = b'0' + rest as u8;
        self.put(&digits[start..]);
    }

    // Puts numbers behind it, each behind a space, and a newline after them.
    fn put_onward(&mut self, numbers: &[u64])
        requires { length self.old + length (onward (map decimal numbers.now)) ≤ text_size }
        ensures { self.new ≡ self.old ++ onward (map decimal numbers.now) }
    {
        for number in numbers {
            self.put(b" ");
            self.put_decimal(*number);
        }
        self.put(b"\n");
    }
}

// The header of the lines of events.
pub fn header() -> Text
    ensures { result ≡ text_of header_fields }
{
    holding(b"event answer stream value clock tag\n")
}

// The line of an event: its number, the reply, the stream, the value, the clock afterwards and the tag.
pub fn line(number: u64, answer: u64, stream: u64, value: u64, clock: u64, tag: u64) -> Text
    ensures { result ≡ text_of (event_fields number answer stream value clock tag) }
{
    numbered(number, &[answer, stream, value, clock, tag])
}

// The line that says by which number a file was refused and, where its load is over the span, by how much; 0 stands for none, as the definitions say it.
pub fn refused(number: u64, over: u64) -> Text
    ensures { result ≡ text_of (refused_fields number over) }
{
    if over == 0 {
        return worded(b"refused", &[number]);
    }
    worded(b"refused", &[number, over])
}

// The header of the lines of a tally.
pub fn tally_header() -> Text
    ensures { result ≡ text_of tally_header_fields }
{
    holding(b"stream jobs late expired time largest\n")
}

// The line of a stream in a tally: its number, and what was counted of it.
pub fn tally_line(stream: u64, jobs: u64, late: u64, expired: u64, time: u64, largest: u64) -> Text
    ensures { result ≡ text_of (tally_fields stream jobs late expired time largest) }
{
    numbered(stream, &[jobs, late, expired, time, largest])
}

// The line before the totals of a tally.
pub fn total() -> Text
    ensures { result ≡ text_of total_fields }
{
    worded(b"total", &[])
}

// The line that says that a listing follows.
pub fn accepted() -> Text
    ensures { result ≡ text_of accepted_fields }
{
    worded(b"accepted", &[])
}

// The line that says which line of a listing does not follow.
pub fn place(number: u64) -> Text
    ensures { result ≡ text_of (place_fields number) }
{
    numbered(number, &[])
}

// The line of a booking: the reply and the value.
pub fn receipt(number: u64, value: u64) -> Text
    ensures { result ≡ text_of (receipt_fields number value) }
{
    numbered(number, &[value])
}

// The line of a word and numbers behind it; of a word or numbers too long for a text, the first ones.
pub fn worded(word: &[u8], numbers: &[u64]) -> Text
    ensures { result ≡ text_of (worded_fields word.now numbers.now) }
{
    let mut text = Text::empty();
    text.put(&word[..word.len().min(Text::WORD_MOST)]);
    text.put_onward(&numbers[..numbers.len().min(Text::NUMBERS_MOST)]);
    text
}

// The text of a line that is there already.
fn holding(words: &[u8]) -> Text
    requires { length words.now ≤ text_size }
    ensures { result ≡ text_holding words.now }
{
    let mut text = Text::empty();
    text.put(words);
    text
}

// The line of a number and up to five others behind it.
fn numbered(first: u64, others: &[u64]) -> Text
    requires { length others.now ≤ 5 }
    ensures { result ≡ text_of (map decimal (first ∷ others.now)) }
{
    let mut text = Text::empty();
    text.put_decimal(first);
    text.put_onward(others);
    text
}
