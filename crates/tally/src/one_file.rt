// One file: what is counted of it.
ghost use Rattle.std.specs.Prelude.{◌≡◌, IfOk};
ghost use Rattle.std.specs.Io.{ReadsAtMost};

use crate::print::print_counts;
use counts::Counts;
use std::fs::Files;
use std::io;

// Prints what is counted of a file, and adds it to the totals.
pub(crate) fn tally_file<R: Files + Print>(
    rt: &R,
    err: &impl Print,
    totals: Counts,
    name: &[u8],
    file: &mut [u8],
) -> io::Result<Counts> {
    rt.print("file ")?;
    rt.write_all(name)?;
    rt.print("\n")?;
    let len = read_file(rt, err, name, file)?;
    let filed = counts::of_file(&file[..len]);
    match filed {
        Ok(filed) => print_counts(rt, filed.counts, filed.count)?,
        Err(refusal) => {
            let line = listing::refused(refusal.number(), refusal.over());
            rt.write_all(line.as_bytes())?;
        }
    }
    Ok(totals.and(counts::counts_in(filed)))
}

// Reads a file, and answers how many bytes it has. One that cannot be read, as a folder, has none.
fn read_file(rt: &impl Files, err: &impl Print, name: &[u8], file: &mut [u8]) -> io::Result<usize>
    ensures { ReadsAtMost result file.new }
{
    match given::read_file(rt, name, file) {
        Ok(len) => Ok(len),
        Err(_) => unread(err, name),
    }
}

// Says that a file cannot be read, and answers 0: it is refused by 16, as one that has no bytes.
fn unread(err: &impl Print, name: &[u8]) -> io::Result<usize>
    ensures { IfOk result (λ n. n ≡ 0) }
{
    err.print("tally: cannot read ")?;
    err.write_all(name)?;
    err.print("\n")?;
    Ok(0)
}
