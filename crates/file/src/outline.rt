// Where the parts of a file are.
ghost use Rattle.std.specs.Prelude.{◌≡◌};
ghost use Rattle.file.specs.Reading.{outline_of};

use crate::body::table_length;
use crate::form::{Form, form_in};
use crate::refusal::Refusal;
use cells::number_at;
use table::Table;

// The form, how many streams there are, and where the trace is.
#[derive(Clone, Copy, Debug, PartialEq, Eq)]
pub struct Outline {
    pub form: Form,
    pub count: usize,
    pub start: usize,
    pub end: usize,
}

// Where the parts of any bytes are. Nothing in them is judged but the count, and that no body is cut short.
#[tactic(auto, using(crate::proofs::Choices::choices, crate::proofs::Forms::start_low, crate::proofs::Forms::third_low), unfolding(crate::specs::Reading::outline_of))]
pub fn outline_of(file: &[u8]) -> Result<Outline, Refusal>
    ensures { result ≡ outline_of file.now }
{
    let form = form_in(file);
    let at = form.table_start();
    let count = number_at(file, at + 12, 4) as usize;
    if Table::STREAMS_MAX < count {
        return Err(Refusal::Layout);
    }
    let start = at + table_length(count);
    let third = form.third() as usize;
    if file.len() < start + third {
        return Err(Refusal::Layout);
    }
    Ok(Outline {
        form,
        count,
        start,
        end: file.len() - third,
    })
}
