// Why a file is not salvaged, and what is said of it.
use file::Refusal;
use std::io;

// The old file cannot be read on, or is refused; the new one cannot be made, or not be written; or what is printed cannot be written.
#[derive(Debug, Drop)]
pub(crate) enum Failure {
    Unread,
    Refused(Refusal),
    Unmade(io::Error),
    Unwritten,
    Unprinted(io::Error),
}

impl From<Refusal> for Failure {
    fn from(refusal: Refusal) -> Failure {
        Failure::Refused(refusal)
    }
}

impl From<io::Error> for Failure {
    fn from(error: io::Error) -> Failure {
        Failure::Unprinted(error)
    }
}

impl Failure {
    // Says what went wrong: on standard error, but by which number a file is refused where changes are printed.
    pub(crate) fn say<R: Print + Alloc>(
        self,
        rt: &R,
        err: &impl Print,
        old: &[u8],
        new: &[u8],
    ) -> io::Result<()> {
        match self {
            Failure::Unread => cannot(err, "read", old, "\n"),
            Failure::Refused(refusal) => {
                let line = listing::refused(refusal.number(), 0);
                rt.write_all(line.as_bytes())
            }
            Failure::Unmade(error) => unmade(rt, err, new, error),
            Failure::Unwritten => cannot(err, "write", new, "\n"),
            Failure::Unprinted(error) => Err(error),
        }
    }
}

// Says what cannot be done with a file, and what stands behind its name.
fn cannot(err: &impl Print, what: &str, name: &[u8], end: &str) -> io::Result<()> {
    print!(err; "salvage: cannot {what} ")?;
    err.write_all(name)?;
    err.print(end)
}

// Says why the new file cannot be made, as where there is one of that name. The system's words come with its number behind them, which is left out.
fn unmade(rt: &impl Alloc, err: &impl Print, name: &[u8], error: io::Error) -> io::Result<()> {
    cannot(err, "make", name, ": ")?;
    let text = error.to_string(rt.alloc())?;
    match text.as_str().rsplit_once(" (os error ") {
        Some((words, _)) => err.print(words)?,
        None => err.print(text.as_str())?,
    }
    err.print("\n")
}
