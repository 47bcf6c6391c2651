// What is printed of a file that is salvaged: its changes, a line each.
ghost use Rattle.std.specs.Prelude.{◌≤◌};
ghost use Rattle.repair.specs.Pieces.{table_end_max};

use crate::failure::Failure;
use crate::pieces::{check_end, go_to, read_piece};
use file::{Event, Form};
use repair::{Change, Rest, Taken};
use std::io;
use std::io::{Read, Seek};

// A place for each event of a piece, and for a torn rest.
const PLACES: usize = 4_097;

// Prints the list of changes, as far as the file can be read.
// As in `gather`, the loop counts its turns, up to a number that no run comes to. It stops at a piece that is shorter.
pub(crate) fn print_changes<F: Read + Seek>(
    rt: &impl Print,
    old: &mut F,
    head: &[u8],
    taken: Taken,
    kept: usize,
) -> Result<(), Failure>
    requires { taken.start ≤ table_end_max }
{
    go_to(old, taken.start)?;
    if !file::has_contents(head, Form::Two, taken.count, kept) {
        print_change(rt, Change::contents())?;
    }
    let mut rest = Rest {
        at: taken.start as u64,
        room: Event::MOST,
    };
    let mut piece = [0u8; given::FILE_ROOM];
    for _ in 0..u64::MAX {
        let len = read_piece(old, &mut piece)?;
        rest = print_piece(rt, rest, &piece[..len])?;
        if len < piece.len() {
            break;
        }
    }
    check_end(old)
}

// Prints what is changed of a piece, and answers what is left behind it. There is a place for each change, and no file is so long that a piece is refused.
fn print_piece(rt: &impl Print, rest: Rest, piece: &[u8]) -> io::Result<Rest> {
    let mut changes = [[0u64; 2]; PLACES];
    let Ok(listed) = rest.list(piece, &mut changes) else {
        return Ok(rest);
    };
    for pair in changes.iter().take(listed.changes) {
        print_change(rt, Change::from(*pair))?;
    }
    Ok(listed.rest)
}

fn print_change(rt: &impl Print, change: Change) -> io::Result<()> {
    let line = change.line();
    rt.write_all(line.as_bytes())
}
