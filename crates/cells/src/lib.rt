// Numbers and runs of bytes at an index of a slice. Any arguments will do: past the end a read gives 0, and a store is left out.
#![tactic(auto)]

ghost use Rattle.std.specs.Prelude.{◌≡◌, ◌-◌, min};
ghost use Rattle.std.proofs.lemmas.List.Edits.{sets};
ghost use Rattle.cells.specs.Cells.{cell, number_at};

// The number in the `width` bytes from an index on; of more than eight, the eight lowest.
pub fn number_at(bytes: &[u8], at: usize, width: usize) -> u64
    ensures { result ≡ number_at (min width 8) bytes.now at }
{
    let run = run_width(at, width.min(8), bytes.len());
    let mut n: u64 = 0;
    // By index, since over the bytes, turned round, the loop is not unrolled, and an event takes a tenth more to read; a copy of the bytes and `from_le_bytes` take more instructions, too.
    for i in 0..run {
        n = n * 256 + u64::from(bytes[at + (run - (i + 1))]);
    }
    n
}

// Stores the `width` low bytes of a number from an index on.
pub fn put_number(out: &mut [u8], at: usize, width: usize, n: u64)
    ensures { out.new ≡ sets out.old at (cell width n) }
{
    let from = at.min(out.len());
    let run = width.min(out.len() - from);
    let mut rest = n;
    for byte in out[from..from + run].iter_mut() {
        *byte = (rest % 256) as u8;
        rest /= 256;
    }
}

// Stores a run of bytes from an index on.
pub fn put_bytes(out: &mut [u8], at: usize, bytes: &[u8])
    ensures { out.new ≡ sets out.old at bytes.now }
{
    let run = bytes.len().min(out.len().saturating_sub(at));
    // Byte by byte: by a copy of the slice the library that C links would need memmove, which it does without.
    for i in 0..run {
        out[at + i] = bytes[i];
    }
}

// How many bytes of a run of this width a slice of this length has from an index on.
// By tests, and not by `min` and `saturating_sub`: where a caller knows that the run lies within the slice, the compiler sees it so, and an event of a trace takes a quarter of the instructions to judge.
fn run_width(at: usize, width: usize, len: usize) -> usize
    ensures { result ≡ min width (len - at) }
{
    if len < at {
        return 0;
    }
    if width < len - at { width } else { len - at }
}
