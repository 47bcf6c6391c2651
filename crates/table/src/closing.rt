// Cells that close up over one that is left out.
ghost use Rattle.std.specs.Prelude.{◌≡◌, ◌<◌};
ghost use Rattle.table.specs.Fold.{closed_up};

// Cells without the one at j: those behind it close up, and the last, which is set free, is empty.
pub fn closed_up<T: Copy, const N: usize>(empty: T, cells: [T; N], j: usize) -> [T; N]
    requires { j < N }
    ensures { result ≡ closed_up empty j cells }
{
    let mut left = cells;
    // One by one: by `copy_within` the library that C links would need memmove, which it does without.
    for i in j..N - 1 {
        left[i] = cells[i + 1];
    }
    left[N - 1] = empty;
    left
}
