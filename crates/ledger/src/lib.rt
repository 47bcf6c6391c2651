// A file of bookings: its lines, whether each may stand where it stands, and what is printed of them.
#![tactic(auto)]

mod line;
mod lines;
mod phrase;
mod taking;

use booking::Booking;
pub use line::entry_of;
pub use lines::{judge, line_end};
pub use taking::taken;

// What a line says: nothing; that the table is begun, with its numbers and the limit of each desk; a booking; or nothing that can be understood, which is a case of its own, since `stands`, `taken_by` and `replied_to` each say what becomes of it. W, H and k stand apart, as `RefusedBeginning` has them.
#[derive(Clone, Copy)]
pub enum Entry {
    Blank,
    Begin {
        worst: u32,
        span: u32,
        padding: u32,
        limit1: u64,
        limit2: u64,
    },
    Call(Booking),
    Wrong,
}

// Why a file is not taken: no table is begun; or a line may not stand where it stands, the first of them by its number, and whether a table was begun before it.
#[derive(Clone, Copy, Debug, PartialEq, Eq)]
pub enum Fault {
    Unbegun,
    Amiss { line: u64, begun: bool },
}
