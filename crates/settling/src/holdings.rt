// What a seat holds from all origins.
use roster::size::Size;

// By origin: seat k at index k - 1.
#[derive(Clone, Copy)]
pub struct Holdings {
    pub size: Size,
    pub codes: [Option<u64>; 10],
    pub flags: [Option<u64>; 10],
}
