// The forms of a session file: how many entries its contents table has, and how long its third body is.
ghost use Rattle.std.specs.Prelude.{◌≡◌, true, OkIff};
ghost use Rattle.file.specs.File.{entries_of, table_start, third_length, is_third_length, form_of_third};
ghost use Rattle.file.specs.Reading.{form_in};
ghost use Rattle.file.specs.Writing.{has_place};

use cells::number_at;
use order::Order;

// A file of two entries, whose order is nearest; or one of three, which says its order.
#[derive(Clone, Copy, Debug, PartialEq, Eq)]
pub enum Form {
    Two,
    Three,
}

// A number is the length of no form's third body.
#[derive(Clone, Copy, Debug, PartialEq, Eq)]
pub struct UnknownLength;

impl Form {
    // How many bytes count the entries, and how many an entry and an order have.
    const COUNT_SIZE: usize = 2;

    const ENTRY_SIZE: usize = 12;

    const ORDER_SIZE: u64 = 4;

    pub(crate) fn entries(self) -> u64
        ensures { result ≡ entries_of self }
    {
        match self {
            Form::Two => 2,
            Form::Three => 3,
        }
    }

    // Where the table body starts: after the last entry.
    pub(crate) fn table_start(self) -> usize
        ensures { result ≡ table_start self }
    {
        Form::COUNT_SIZE + Form::ENTRY_SIZE * (self.entries() as usize)
    }

    // How long the third body is; of a form without one, 0.
    pub fn third(self) -> u64
        ensures { result ≡ third_length self }
    {
        match self {
            Form::Two => 0,
            Form::Three => Form::ORDER_SIZE,
        }
    }

    // Whether a number is the length of some form's third body.
    pub fn is_third(number: u64) -> bool
        ensures { result ≡ is_third_length number }
    {
        Form::try_from(number).is_ok()
    }

    // The form whose third body has this length; of any other, that of two entries.
    #[tactic(auto, using(crate::proofs::Choices::choices), unfolding(crate::specs::File::is_third_length, crate::specs::File::form_of_third))]
    pub fn of_third(number: u64) -> Form
        ensures { result ≡ form_of_third number }
    {
        Form::try_from(number).unwrap_or(Form::Two)
    }

    // Whether a file of this form has a place for an order: one of two entries means nearest.
    pub(crate) fn has_place(self, order: Order) -> bool
        ensures { result ≡ has_place self order }
    {
        match self {
            Form::Two => order == Order::Nearest,
            Form::Three => true,
        }
    }
}

// The form whose third body has this length.
impl TryFrom<u64> for Form {
    type Error = UnknownLength;

    ghost try_from_gives = { λ number result. OkIff result (is_third_length number ≡ true) (form_of_third number) };

    #[tactic(auto, using(crate::proofs::Choices::choices), unfolding(crate::specs::File::is_third_length, crate::specs::File::form_of_third))]
    fn try_from(number: u64) -> Result<Form, UnknownLength> {
        match number {
            0 => Ok(Form::Two),
            Form::ORDER_SIZE => Ok(Form::Three),
            _ => Err(UnknownLength),
        }
    }
}

// The form of any bytes, by the number of entries that they say.
#[tactic(auto, using(crate::proofs::Choices::choices), unfolding(crate::specs::Reading::form_in))]
pub(crate) fn form_in(file: &[u8]) -> Form
    ensures { result ≡ form_in file.now }
{
    if number_at(file, 0, 2) == 3 {
        return Form::Three;
    }
    Form::Two
}
