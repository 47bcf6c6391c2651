// What is judged of a table before its load.
ghost use Rattle.std.specs.Prelude.{◌≡◌, IfOk};
ghost use Rattle.table.specs.Refusal.{refused_by};
ghost use Rattle.table.specs.Admission.{numbers_refusal, streams_refusal, parts_refusal};
ghost use Rattle.table.specs.Margin.{answer_by};

use crate::{Refusal, Table};

// A table that 1 to 6 do not refuse.
#[derive(Clone, Copy)]
pub(crate) struct Judged {
    pub(crate) table: Table,
    ghost in_order: { parts_refusal table ≡ 0 },
}

impl Judged {
    // 1 to 6: the numbers of the whole table, then its streams.
    pub(crate) fn of(table: Table) -> Result<Judged, Refusal>
        ensures number { refused_by result ≡ parts_refusal table }
        ensures value { IfOk result (λ judged. judged.table ≡ table) }
    {
        numbers_refusal(table)?;
        streams_refusal(table)?;
        Ok(Judged { table })
    }
}

// 1 to 4: the numbers of the whole table.
pub fn numbers_refusal(t: Table) -> Result<(), Refusal>
    ensures { result ≡ answer_by (numbers_refusal t) }
{
    if (t.count < 1) | (Table::STREAMS_MAX < t.count) {
        return Err(Refusal::Streams);
    }
    t.numbers().ranges_refusal()
}

// 5 and 6, stream by stream.
fn streams_refusal(t: Table) -> Result<(), Refusal>
    ensures { refused_by result ≡ streams_refusal t }
{
    let numbers = t.numbers();
    for i in 0..t.count {
        numbers.stream_refusal(t.reservation(i))?;
    }
    Ok(())
}
