// What a seat has done so far, and what it may do next.
use roster::decision::Decision;

#[derive(Clone, Copy, Default)]
pub struct Record {
    // what it put
    pub code: Option<u64>,
    // whether it has put its flag: whether enough others put what it put
    pub flagged: bool,
    // whether it has put its bit below: whether one figure stands out
    pub voted: bool,
    pub decided: Option<Decision>,
}

// An act that is due when a seat is woken.
#[derive(Clone, Copy)]
pub enum Due {
    Flag(bool),
    Vote(bool),
    Decide(Decision),
}
