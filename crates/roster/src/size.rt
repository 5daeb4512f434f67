// How many seats there are, and how many of them may be faulty.
ghost use Rattle.std.specs.Prelude.{◌*◌, ◌<◌, ◌≤◌};

// All that the rules of a sound seat may know of a roster: n seats, of which at most t are faulty.
#[derive(Clone, Copy, PartialEq, Eq, Debug)]
pub struct Size {
    n: u64,
    t: u64,
    ghost some: { 1 ≤ n },
    ghost few: { n ≤ 10 },
    ghost third: { 3 * t < n },
}

pub mod make;
pub mod quorums;
