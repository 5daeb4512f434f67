// What is to be moved.
ghost use Rattle.std.specs.Prelude.{◌≡◌, refl};
ghost use Rattle.std.proofs.Common.{rules};
ghost use Rattle.figures.specs.Apart.{orders_apart};
ghost use Rattle.figures.specs.Figures.{order_proper, order_code};

use crate::figure::Figure;
use crate::tank::is_tank;
use roster::denial::Denial;

// The tank that it comes from and the one that it goes to, two different ones of 1 to 99, and the litres, 1 to 999,999.
#[derive(Clone, Copy, PartialEq, Eq, Debug)]
pub struct Order {
    pub from: u64,
    pub to: u64,
    pub litres: u64,
}

fn is_proper(order: Order) -> bool
    ensures { result ≡ order_proper order }
{
    if !is_tank(order.from) || !is_tank(order.to) || order.from == order.to {
        return false;
    }
    1 <= order.litres && order.litres <= 999_999
}

impl Figure for Order {
    const LARGEST: u64 = 9_998_999_999;

    ghost largest = { 9998999999 };

    ghost proper = { order_proper };

    ghost written = { order_code };

    ghost bound = { Prim.search rules };

    ghost attained = { (record { from = 99; to = 98; litres = 999999 }, refl, refl) };

    ghost apart = { orders_apart };

    fn largest_code() -> u64 {
        Self::LARGEST
    }

    fn code(&self) -> Result<u64, Denial> {
        if !is_proper(*self) {
            return Err(Denial::FigureRange);
        }
        Ok((self.from * 100 + self.to) * 1_000_000 + self.litres)
    }

    fn read(code: u64) -> Option<Order> {
        let tanks = code / 1_000_000;
        let order = Order {
            from: tanks / 100,
            to: tanks % 100,
            litres: code % 1_000_000,
        };
        is_proper(order).then_some(order)
    }
}
