// What an umpire knows.
ghost use Rattle.std.specs.Prelude.{◌≡◌, false, length, replicate, None};

use roster::decision::Decision;
use roster::roster::Roster;

// Each seat puts once. As soon as the umpire can, it rules once and for all, and the sound seats are given its ruling one by one.
#[derive(Drop)]
pub struct Umpire {
    roster: Roster,
    // the largest code that may be put
    largest: u64,
    // by seat, faulty ones too
    puts: [Option<u64>; 10],
    ruling: Option<Decision>,
    // the ruling, by the seat that was given it
    given: [Option<Decision>; 10],
    touched: bool,
    ghost room: { length puts ≡ 10 },
    ghost rooms: { length given ≡ 10 },
    // an untouched umpire is blank
    ghost unput: { touched ≡ false → puts ≡ replicate 10 None },
    ghost unruled: { touched ≡ false → ruling ≡ None },
    ghost ungiven: { touched ≡ false → given ≡ replicate 10 None },
}

pub mod agree;
mod give;
mod look;
pub mod make;
mod note;
mod rules;
mod still;
