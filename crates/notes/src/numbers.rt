// How many numbers or names follow a word, and how large a number may be: what the lines take, and what not.
ghost use Rattle.std.specs.Prelude.{◌≡◌};
ghost use Rattle.notes.specs.Line.{word_line, number_line, pair_line, triple_line};
ghost use Rattle.notes.specs.Numbers.{is_right, is_known, takes, fits, first_of, room_at};

use crate::draft::{Draft, takes_name};
use crate::line::{Line, fields_line, number_line, pair_line, triple_line, word_line};

// The least numbers for which a byte and four bytes have no room.
const PAST_BYTE: u64 = 0x100;

const PAST_WORD: u64 = 0x1_0000_0000;

pub(crate) fn is_right(line: Line) -> bool
    ensures { result ≡ is_right line }
{
    !matches!(line, Line::Wrong)
}

// Whether a word is one of notes.
#[tactic(auto, using(file::proofs::Choices::choices), unfolding(crate::specs::Numbers::is_known))]
pub(crate) fn is_known(word: u64) -> bool
    ensures { result ≡ is_known word }
{
    takes_name(word)
        | is_right(word_line(word))
        | is_right(number_line(word, 0))
        | is_right(pair_line(word, 0, 0))
}

// How many numbers or names it takes at most; of three numbers the last may be left out.
#[tactic(auto, using(file::proofs::Choices::choices), unfolding(crate::specs::Numbers::takes))]
pub(crate) fn takes(word: u64) -> u64
    ensures { result ≡ takes word }
{
    if is_right(word_line(word)) {
        return 0;
    }
    if takes_name(word) | is_right(number_line(word, 0)) {
        return 1;
    }
    if is_right(triple_line(word, 0, 0, 0)) {
        return 3;
    }
    2
}

// Whether no number of a line so far is too large, and no name is that of no order.
#[tactic(auto, using(file::proofs::Choices::choices), unfolding(crate::specs::Numbers::fits))]
pub(crate) fn fits(draft: Draft) -> bool
    ensures { result ≡ fits draft }
{
    (draft.fields < 2)
        | is_right(fields_line(draft))
        | ((draft.fields == 2) & is_right(pair_line(draft.word, draft.last, 0)))
}

// Its first number.
#[tactic(auto, using(file::proofs::Choices::choices), unfolding(crate::specs::Numbers::first_of))]
fn first_of(draft: Draft) -> u64
    ensures { result ≡ first_of draft }
{
    if draft.fields == 2 {
        return draft.last;
    }
    if draft.fields == 3 {
        return draft.before;
    }
    draft.earlier
}

// For how many bits there is room where the first of its numbers stands that is too large.
#[tactic(auto, using(file::proofs::Choices::choices), unfolding(crate::specs::Numbers::room_at))]
pub(crate) fn room_at(draft: Draft) -> u64
    ensures { result ≡ room_at draft }
{
    if is_right(number_line(draft.word, PAST_WORD)) {
        return 64;
    }
    if is_right(number_line(draft.word, 0)) {
        return 32;
    }
    if is_right(pair_line(draft.word, PAST_BYTE, 0)) {
        return 32;
    }
    if is_right(pair_line(draft.word, first_of(draft), 0)) {
        if draft.fields == 4 {
            return 32;
        }
        return 64;
    }
    8
}
