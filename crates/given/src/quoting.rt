// What a message quotes of an input.
use std::io;

// How much of a text is quoted.
const QUOTED_MOST: usize = 40;

// Prints the start of a text between quotation marks, with dots behind it where it is cut, here or already; a byte that is no plain text is shown as a question mark.
pub fn quote(to: &impl Print, text: &[u8], is_cut: bool) -> io::Result<()> {
    let end = text.len().min(QUOTED_MOST);
    let mut plain = [b'?'; QUOTED_MOST];
    for (shown, byte) in plain.iter_mut().zip(text) {
        if byte.is_ascii_graphic() | (*byte == b' ') {
            *shown = *byte;
        }
    }
    to.print("\"")?;
    to.write_all(&plain[..end])?;
    if is_cut | (end < text.len()) {
        to.print("...")?;
    }
    to.print("\"")
}
