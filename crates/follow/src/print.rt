// What is said of a listing.
use logs::Follower;
use std::io;

// Prints it line by line, up to the first in which there is nothing.
pub(crate) fn print_report(
    rt: &impl Print,
    follower: Follower,
    file: &[u8],
    left: &[u8],
) -> io::Result<()> {
    for k in 0..usize::MAX {
        let line = follower.report(file, left, k);
        if line.is_empty() {
            break;
        }
        rt.write_all(line.as_bytes())?;
    }
    Ok(())
}
