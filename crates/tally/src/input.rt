// The names of standard input, one a line.
ghost use Rattle.std.specs.Prelude.{◌≤◌, length, IfOk};

use crate::one_file::tally_file;
use counts::Counts;
use std::fs::Files;
use std::io;
use std::io::Read;

// The names so far: how much of the next one is in its buffer, and what was counted of the files before it. The buffer is lent beside it, since a program has fixed memory and no heap.
#[derive(Clone, Copy)]
struct Names {
    len: usize,
    totals: Counts,
}

// Tallies the files that standard input names; None where it cannot be read. The last name ends with the input.
// A proved loop has to end, and nothing says that an input does. So the loop counts its turns, up to a number that no run comes to. It stops where there is no more to read.
pub(crate) fn tally_input<R: Files + Print>(
    rt: &R,
    err: &impl Print,
    from: &mut impl Read,
    file: &mut [u8],
) -> io::Result<Option<Counts>> {
    let mut name = [0u8; given::NAME_ROOM];
    let mut piece = [0u8; given::NAME_ROOM];
    let totals = Counts::none();
    let mut names = Names { len: 0, totals };
    for _ in 0..u64::MAX {
        let Ok(count) = from.read(&mut piece) else {
            return Ok(None);
        };
        if count == 0 {
            break;
        }
        names = tally_bytes(rt, err, names, &piece[..count], &mut name, file)?;
    }
    let names = tally_byte(rt, err, names, b'\n', &mut name, file)?;
    Ok(Some(names.totals))
}

// Goes over the bytes of a piece. The runtime, standard error and the two buffers are handed down as they are: a struct of these loans would be taken apart again at each call.
fn tally_bytes<R: Files + Print>(
    rt: &R,
    err: &impl Print,
    before: Names,
    bytes: &[u8],
    name: &mut [u8],
    file: &mut [u8],
) -> io::Result<Names>
    requires { before.len ≤ length name.old }
    ensures { IfOk result (λ names. names.len ≤ length name.old) }
{
    let mut names = before;
    for byte in bytes {
        names = tally_byte(rt, err, names, *byte, name, file)?;
    }
    Ok(names)
}

// Puts a byte behind those of a name, as long as there is room; at a newline, tallies the file of that name. An empty line is no name.
fn tally_byte<R: Files + Print>(
    rt: &R,
    err: &impl Print,
    names: Names,
    byte: u8,
    name: &mut [u8],
    file: &mut [u8],
) -> io::Result<Names>
    requires { names.len ≤ length name.old }
    ensures { IfOk result (λ after. after.len ≤ length name.old) }
{
    let len = names.len;
    let totals = names.totals;
    if byte == b'\n' {
        if len == 0 {
            return Ok(names);
        }
        let totals = tally_file(rt, err, totals, &name[..len], file)?;
        return Ok(Names { len: 0, totals });
    }
    if len < name.len() {
        name[len] = byte;
        return Ok(Names {
            len: len + 1,
            totals,
        });
    }
    Ok(names)
}
