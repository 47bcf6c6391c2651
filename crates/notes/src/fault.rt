// What is wrong with a line.
ghost use Rattle.std.specs.Prelude.{◌≡◌};
ghost use Rattle.notes.specs.Fault.{stream_fault, event_fault, right_fault, count_fault, field_fault, value_fault, fault_by};

use crate::Notes;
use crate::draft::{Draft, Place, takes_name};
use crate::line::{Line, line_of};
use crate::numbers::{fits, is_known, is_right, room_at, takes};

// A carriage return within the line; a byte order mark; no word of notes; more or fewer numbers than the word takes, or another number of names than one;
// no number; a number for which so many bits have no room; no order; a line that stands where it may not; a ninth stream; an event after 4,000.
// The word, the number or the name is what the notes have heard of the line. How many numbers a word takes and how many bits have room are numbers, as `count_fault`, `field_fault` and the cases say them.
#[derive(Clone, Copy, Debug, PartialEq, Eq)]
pub enum Fault {
    Return,
    Mark,
    Word,
    Numbers(u64),
    OneWord,
    NoNumber,
    TooLarge(u64),
    NoOrder,
    Misplaced,
    NinthStream,
    LateEvent,
}

impl Notes {
    // What is wrong with the line that is being read, from its start on.
    #[tactic(auto, using(file::proofs::Choices::choices, crate::proofs::Faults::amiss_test, crate::proofs::Faults::stray_test, crate::proofs::Faults::takes_few), unfolding(crate::specs::Fault::fault_of))]
    pub(crate) fn fault(self) -> Fault
        ensures { result ≡ fault_by self }
    {
        let draft = self.draft;
        if draft.place == Place::Stray {
            return Fault::Return;
        }
        if self.heard.word.is_marked() {
            return Fault::Mark;
        }
        if !is_known(draft.word) | ((draft.place == Place::Amiss) & (draft.fields == 1)) {
            return Fault::Word;
        }
        if takes(draft.word) + 1 < draft.fields {
            return count_fault(draft.word);
        }
        self.value_fault()
    }

    // What is wrong behind a word of notes.
    #[tactic(auto, using(file::proofs::Choices::choices, crate::proofs::Faults::amiss_test), unfolding(crate::specs::Fault::value_fault))]
    fn value_fault(self) -> Fault
        ensures { result ≡ value_fault self.draft self.heard.number.digits self.numbers self.events }
    {
        let draft = self.draft;
        if (draft.place == Place::Amiss) | !fits(draft) {
            return field_fault(draft, self.heard.number.digits);
        }
        let line = line_of(draft);
        if is_right(line) {
            return self.right_fault(line);
        }
        count_fault(draft.word)
    }

    // What is wrong with a line that is right by itself: a stream or an event too many, or one that comes too early or too late.
    fn right_fault(self, line: Line) -> Fault
        ensures { result ≡ right_fault self.numbers self.events line }
    {
        match line {
            Line::Stream { .. } => stream_fault(self.numbers, self.events),
            Line::Call(_) => event_fault(self.numbers),
            Line::Blank
            | Line::Worst(_)
            | Line::Span(_)
            | Line::Padding(_)
            | Line::Ordered(_)
            | Line::Wrong => Fault::Misplaced,
        }
    }
}

// More or fewer fields behind a word than it takes.
#[tactic(auto, using(file::proofs::Choices::choices), unfolding(crate::specs::Fault::count_fault))]
fn count_fault(word: u64) -> Fault
    ensures { result ≡ count_fault word }
{
    if takes_name(word) {
        return Fault::OneWord;
    }
    Fault::Numbers(takes(word))
}

// What is wrong with a field behind a word that is not as it should be; whether the number that was heard has digits only.
#[tactic(auto, using(file::proofs::Choices::choices, crate::proofs::Faults::amiss_test), unfolding(crate::specs::Fault::field_fault))]
fn field_fault(draft: Draft, digits: bool) -> Fault
    ensures { result ≡ field_fault draft digits }
{
    if takes_name(draft.word) {
        return Fault::NoOrder;
    }
    if (draft.place == Place::Amiss) & !digits {
        return Fault::NoNumber;
    }
    Fault::TooLarge(room_at(draft))
}

// A stream too many, or one that comes too early or too late.
#[tactic(auto, using(file::proofs::Choices::choices), unfolding(crate::specs::Fault::stream_fault))]
fn stream_fault(numbers: u64, events: usize) -> Fault
    ensures { result ≡ stream_fault numbers events }
{
    if (numbers == Notes::TABLE_NUMBERS) & (events == 0) {
        return Fault::NinthStream;
    }
    Fault::Misplaced
}

// An event too many, or one that comes too early.
#[tactic(auto, using(file::proofs::Choices::choices), unfolding(crate::specs::Fault::event_fault))]
fn event_fault(numbers: u64) -> Fault
    ensures { result ≡ event_fault numbers }
{
    if numbers == Notes::TABLE_NUMBERS {
        return Fault::LateEvent;
    }
    Fault::Misplaced
}
