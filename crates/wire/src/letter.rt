// A letter, as numbers.

// How many bytes a letter is.
pub const LETTER_LEN: usize = 23;

// The numbers are wide, so that those out of range can be handed in and denied.
#[derive(Clone, Copy, PartialEq, Eq, Debug)]
pub struct Letter {
    // 1 to 3
    pub kind: u64,
    // 1 to 10
    pub origin: u64,
    // 1 or 2
    pub slot: u64,
    pub code: u64,
}
