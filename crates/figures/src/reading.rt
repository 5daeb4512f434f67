// What a tank holds.
ghost use Rattle.std.specs.Prelude.{refl};
ghost use Rattle.std.proofs.Common.{rules};
ghost use Rattle.figures.specs.Figures.{reading_proper, reading_code};

use crate::figure::Figure;
use crate::tank::is_tank;
use roster::denial::Denial;

// A tank, 1 to 99, and the litres in it, 0 to 999,999.
#[derive(Clone, Copy, PartialEq, Eq, Debug)]
pub struct Reading {
    pub tank: u64,
    pub litres: u64,
}

impl Figure for Reading {
    const LARGEST: u64 = 99_999_999;

    ghost largest = { 99999999 };

    ghost proper = { reading_proper };

    ghost written = { reading_code };

    ghost bound = { Prim.search rules };

    ghost attained = { (record { tank = 99; litres = 999999 }, refl, refl) };

    ghost apart = { Prim.search rules };

    fn largest_code() -> u64 {
        Self::LARGEST
    }

    fn code(&self) -> Result<u64, Denial> {
        if !is_tank(self.tank) || self.litres > 999_999 {
            return Err(Denial::FigureRange);
        }
        Ok(self.tank * 1_000_000 + self.litres)
    }

    fn read(code: u64) -> Option<Reading> {
        let tank = code / 1_000_000;
        is_tank(tank).then_some(Reading {
            tank,
            litres: code % 1_000_000,
        })
    }
}
