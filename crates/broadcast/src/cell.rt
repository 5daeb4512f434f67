// What one seat, the receiver, counted, sent and holds for one origin and slot.

#[derive(Clone, Copy, PartialEq, Eq, Debug)]
pub struct Cell {
    // the INIT that it counted, which only the origin sends
    pub init: Option<u64>,
    // the ECHOs and the READYs that it counted, by sender: seat k at index k - 1
    pub echo: [Option<u64>; 10],
    pub ready: [Option<u64>; 10],
    // the INIT that it sent: only where the receiver is the origin
    pub put: Option<u64>,
    // the ECHO and the READY that it sent
    pub echoed: Option<u64>,
    pub readied: Option<u64>,
    pub held: Option<u64>,
}

pub mod entries;
