// Which booking tables are sound: what breaks none of 2 to 7, no limit and no unused cell.
ghost use Rattle.std.specs.Prelude.{◌≡◌, true, ◌≤◌};
ghost use Rattle.table.specs.Ranges.{streams_max};
ghost use Rattle.table.specs.Refusal.{refused_by};
ghost use Rattle.booking.specs.Book.{count_in, sound_cells, table_refusal, is_sound};

use crate::{Book, Desk};
use table::{Refusal, Reservation, Table};

impl Book {
    // Whether the table is sound.
    pub(crate) fn is_sound(self) -> bool
        ensures { result ≡ is_sound self }
    {
        let first = self.first;
        let second = self.second;
        if !(first.is_sound() & second.is_sound()) {
            return false;
        }
        if Table::STREAMS_MAX < self.count() {
            return false;
        }
        if self.table_refusal().is_err() {
            return false;
        }
        (self.shares(first) <= first.limit)
            & (self.shares(second) <= second.limit)
            & (self.unused == 0)
    }

    // 2 to 7: without streams, which have no load, 2 to 4 are left.
    fn table_refusal(self) -> Result<(), Refusal>
        requires { (sound_cells self.first ≡ true) × (sound_cells self.second ≡ true) × (count_in self ≤ streams_max) }
        ensures { refused_by result ≡ table_refusal self }
    {
        if self.count() == 0 {
            return self.numbers().ranges_refusal();
        }
        self.table().admission()?;
        Ok(())
    }
}

impl Desk {
    // Whether the count is one of eight cells, and each unused cell is 0.
    fn is_sound(self) -> bool
        ensures { result ≡ sound_cells self }
    {
        if Table::STREAMS_MAX < self.count {
            return false;
        }
        // All eight places, since the compiler writes out a loop of a fixed length; one that stops at the first takes more instructions.
        let mut empty = true;
        for (i, &cell) in self.streams.iter().enumerate() {
            empty &= (i < self.count) | (cell == Reservation::default());
        }
        empty
    }
}
