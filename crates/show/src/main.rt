// Reads a session file from standard input, and prints it as notes. It says on standard error what it cannot read.
#![tactic(auto)]

ghost use Rattle.std.specs.Prelude.{◌≡◌, Ok};
ghost use Rattle.file.specs.Reading.{read_of};

use file::Layout;
use std::io;

// The buffer holds more than the longest file, so that a longer one is refused without being read to its end.
// Of an input that cannot be read it says so, and prints nothing.
fn main(rt: HostRuntime) -> io::Result<()> {
    let mut buffer = [0u8; given::FILE_ROOM];
    let Ok(len) = given::read_full(&mut rt.stdin(), &mut buffer) else {
        return rt.eprint("show: cannot read standard input\n");
    };
    show(&rt, &rt.stderr(), &buffer[..len])
}

// Prints the notes of a file, or says by which number it is refused.
fn show(rt: &impl Print, err: &impl Print, file: &[u8]) -> io::Result<()> {
    match file::read(file) {
        Ok(layout) => print_notes(rt, file, layout),
        Err(refusal) => err.write_all(listing::refused(refusal.number(), 0).as_bytes()),
    }
}

// Prints the lines of the notes of a file.
#[tactic(auto, using(file::proofs::Round::accepted_is_within))]
fn print_notes(rt: &impl Print, file: &[u8], layout: Layout) -> io::Result<()>
    requires { read_of file.now ≡ Ok layout }
{
    let table = file::table_of(file);
    let trace = &file[layout.start..layout.end];
    for i in 0..notes::head_lines(layout.form) + layout.count + layout.events {
        let line = notes::line_at(layout.form, layout.order, table, trace, i);
        rt.write_all(notes::shown(line).as_bytes())?;
    }
    Ok(())
}
