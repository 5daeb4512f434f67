// What a reduction stands on.
use crate::table::Table;

// Puts go to the carrier, which brings them to all seats; what each makes of them it puts, as a bit, to the agreement below.
#[derive(Drop)]
pub struct Reduction<C, B> {
    carrier: C,
    below: B,
    largest: u64,
    // whether its parts were untouched when it was made
    made: bool,
    table: Table,
}

pub mod agree;
mod change;
mod look;
pub mod make;
mod wake;
