// The old file's trace, which is read piece by piece. A piece of 65,536 bytes has whole events, and only the last is shorter.
ghost use Rattle.std.specs.Prelude.{◌≤◌, ◌*◌, length, IfOk};
ghost use Rattle.file.specs.File.{events_max, event_size};
ghost use Rattle.repair.specs.Pieces.{table_end_max};

use crate::failure::Failure;
use file::Event;
use std::io::{Read, Seek, SeekFrom};

// Keeps what is sound of a trace that starts at an index of the file, up to 4,000 events, and answers how many they are.
// A proved loop has to end, and nothing says that a file does. So the loop counts its turns, up to a number that no run comes to. It stops at a piece that is shorter, or where no event more may be kept.
#[tactic(auto, using(repair::proofs::Kept::kept_few))]
pub(crate) fn gather<F: Read + Seek>(
    old: &mut F,
    start: usize,
    trace: &mut [u8],
) -> Result<usize, Failure>
    requires start_le_table_end_max { start ≤ table_end_max }
    requires events_max_in_bounds { event_size * events_max ≤ length trace.old }
    ensures { IfOk result (λ kept. kept ≤ events_max) }
{
    go_to(old, start)?;
    let mut piece = [0u8; given::FILE_ROOM];
    let mut kept: usize = 0;
    for _ in 0..u64::MAX {
        let len = read_piece(old, &mut piece)?;
        let room = Event::MOST - kept;
        kept += repair::keep(&piece[..len], room, &mut trace[Event::SIZE * kept..]);
        if (len < piece.len()) | (kept == Event::MOST) {
            break;
        }
    }
    if kept < Event::MOST {
        check_end(old)?;
    }
    Ok(kept)
}

// Reads a piece, which fills the buffer unless the file ends before.
pub(crate) fn read_piece(old: &mut impl Read, piece: &mut [u8]) -> Result<usize, Failure>
    ensures { IfOk result (λ len. len ≤ length piece.new) }
{
    given::read_full(old, piece).map_err(|_| Failure::Unread)
}

// Sets the file to an index, from which it is read on.
pub(crate) fn go_to(old: &mut impl Seek, start: usize) -> Result<(), Failure>
    requires { start ≤ table_end_max }
{
    match old.seek(SeekFrom::Start(start as u64)) {
        Ok(_) => Ok(()),
        Err(_) => Err(Failure::Unread),
    }
}

// Reads once more, which has nothing where the file was read to its end.
pub(crate) fn check_end(old: &mut impl Read) -> Result<(), Failure> {
    let mut one = [0u8; 1];
    match old.read(&mut one) {
        Ok(0) => Ok(()),
        Ok(_) | Err(_) => Err(Failure::Unread),
    }
}
