// A letter, as the rules see it: its origin and slot are those of the cell that counts it.
ghost use Rattle.std.specs.Prelude.{◌≡◌};
ghost use Rattle.std.specs.Option.{ok_or};
ghost use Rattle.broadcast.specs.Letters.{kind_of};
ghost use Rattle.roster.specs.declared.denial.Denial.TheVariants.{OutOfRange};

use roster::denial::Denial;

#[derive(Clone, Copy, PartialEq, Eq, Debug)]
pub enum Kind {
    Init,
    Echo,
    Ready,
}

#[derive(Clone, Copy, PartialEq, Eq, Debug)]
pub struct Letter {
    pub kind: Kind,
    pub sender: u64,
    pub code: u64,
}

// The kind that goes by a number: 1 INIT, 2 ECHO, 3 READY.
impl TryFrom<u64> for Kind {
    type Error = Denial;

    ghost try_from_gives = { λ number r. r ≡ ok_or (kind_of number) OutOfRange };

    fn try_from(number: u64) -> Result<Kind, Denial> {
        match number {
            1 => Ok(Kind::Init),
            2 => Ok(Kind::Echo),
            3 => Ok(Kind::Ready),
            _ => Err(Denial::OutOfRange),
        }
    }
}
