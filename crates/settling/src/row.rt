// What a seat has settled.
use roster::decision::Decision;
use roster::size::Size;

// By origin: seat k at index k - 1.
#[derive(Clone, Copy)]
pub struct Row {
    pub size: Size,
    pub settled: [Option<Decision>; 10],
}
