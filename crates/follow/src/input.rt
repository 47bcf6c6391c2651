// The listing, which is read and followed piece by piece.
ghost use Rattle.std.specs.Prelude.{◌≤◌, length, IfOk};

use logs::Follower;
use std::io;
use std::io::Read;

// How far a listing was read: what was followed of it, and how many bytes of its last line are held at the start of the buffer, which is lent beside it: a program has fixed memory and no heap.
#[derive(Clone, Copy)]
pub(crate) struct Listing {
    pub follower: Follower,
    pub held: usize,
}

// Reads a listing to its end, or as far as it follows: no further than a line that does not follow, or one that fills the buffer.
// A proved loop has to end, and nothing says that an input does. So the loop counts its turns, up to a number that no run comes to. It stops where there is no more to read, where a line fills the buffer, or where one does not follow.
pub(crate) fn follow_input(
    from: &mut impl Read,
    follower: Follower,
    file: &[u8],
    buffer: &mut [u8],
) -> io::Result<Listing>
    ensures { IfOk result (λ listing. listing.held ≤ length buffer.new) }
{
    let mut listing = Listing { follower, held: 0 };
    for _ in 0..u64::MAX {
        let held = listing.held;
        let read = from.read(&mut buffer[held..])?;
        listing = follow_lines(listing.follower, file, buffer, held + read);
        let follower = listing.follower;
        if (read == 0) | (listing.held == buffer.len()) | follower.has_failed() {
            break;
        }
    }
    Ok(listing)
}

// Follows the lines in the first bytes of the buffer, up to `end`, and holds what is left behind them.
fn follow_lines(before: Follower, file: &[u8], buffer: &mut [u8], end: usize) -> Listing
    requires { end ≤ length buffer.old }
    ensures { result.held ≤ length buffer.old }
{
    let fed = before.feed(file, &buffer[..end]);
    let held = fed.left;
    buffer.copy_within(end - held..end, 0);
    Listing {
        follower: fed.follower,
        held,
    }
}
