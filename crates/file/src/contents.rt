// The contents table.
ghost use Rattle.std.specs.Prelude.{◌≡◌, ◌*◌, ◌≤◌};
ghost use Rattle.std.proofs.lemmas.List.Edits.{sets};
ghost use Rattle.table.specs.Ranges.{streams_max};
ghost use Rattle.file.specs.File.{events_max, event_size, entry, third_entry, contents, table_start, table_start_max};
ghost use Rattle.file.specs.Reading.{table_length, is_entry, is_third_entry, is_contents};

use crate::form::Form;
use cells::{number_at, put_number};

// Where the entries are. Their kinds, 1 to 3, are numbers of the file's layout, too.
const TABLE_ENTRY: usize = 2;

const TRACE_ENTRY: usize = 14;

const THIRD_ENTRY: usize = 26;

// Whether the contents table is that of a file of this form whose trace starts and ends there.
#[tactic(auto, unfolding(crate::specs::Reading::is_contents))]
pub(crate) fn is_contents(file: &[u8], form: Form, start: usize, end: usize) -> bool
    requires { (table_start form ≤ start) × (start ≤ end) }
    ensures { result ≡ is_contents form file.now start end }
{
    let entries = number_at(file, 0, 2);
    let at = form.table_start();
    let table = is_entry(file, TABLE_ENTRY, 1, at, start - at);
    let trace = is_entry(file, TRACE_ENTRY, 2, start, end - start);
    (entries == form.entries()) & table & trace & is_third_entry(file, form, end)
}

// Whether the third entry, where there is one, is that of a body at this offset.
fn is_third_entry(file: &[u8], form: Form, offset: usize) -> bool
    ensures { result ≡ is_third_entry form file.now offset }
{
    match form {
        Form::Two => true,
        Form::Three => is_entry(file, THIRD_ENTRY, 3, offset, form.third() as usize),
    }
}

// Whether the entry at an index has this kind, offset and length.
// The three numbers of an entry stay arguments, here and where it is stored: a struct of them makes this file half again as long.
// How far in an entry may stand is a fact of one argument, and of the function that has it.
#[tactic(auto, unfolding(crate::specs::Reading::is_entry))]
fn is_entry(file: &[u8], at: usize, kind: u64, offset: usize, len: usize) -> bool
    requires { at ≤ table_start_max }
    ensures { result ≡ is_entry file.now at kind offset len }
{
    (number_at(file, at, 4) == kind)
        & (number_at(file, at + 4, 4) == offset as u64)
        & (number_at(file, at + 8, 4) == len as u64)
}

// Stores the contents table for bodies of these lengths.
#[tactic(auto, using(crate::proofs::Stores::contents_stored, crate::proofs::Forms::start_low))]
pub(crate) fn put_contents(out: &mut [u8], form: Form, table: usize, trace: usize)
    requires { (table ≤ table_length streams_max) × (trace ≤ event_size * events_max) }
    ensures { out.new ≡ sets out.old 0 (contents form table trace) }
{
    let start = form.table_start();
    put_number(out, 0, 2, form.entries());
    put_entry(out, TABLE_ENTRY, 1, start, table);
    put_entry(out, TRACE_ENTRY, 2, start + table, trace);
    put_third_entry(out, form, start + table + trace);
}

// Stores the third entry, where there is one, of a body at this offset.
fn put_third_entry(out: &mut [u8], form: Form, offset: usize)
    ensures { out.new ≡ sets out.old 26 (third_entry form offset) }
{
    match form {
        Form::Two => {}
        Form::Three => put_entry(out, THIRD_ENTRY, 3, offset, form.third() as usize),
    }
}

// Stores an entry at an index.
#[tactic(auto, using(crate::proofs::Stores::entry_stored))]
fn put_entry(out: &mut [u8], at: usize, kind: u64, offset: usize, len: usize)
    requires { at ≤ table_start_max }
    ensures { out.new ≡ sets out.old at (entry kind offset len) }
{
    put_number(out, at, 4, kind);
    put_number(out, at + 4, 4, offset as u64);
    put_number(out, at + 8, 4, len as u64);
}
