// The worked examples, and the edges of each range.
use crate::figure::Figure;
use crate::order::Order;
use crate::reading::Reading;
use roster::denial::Denial;

#[test]
fn readings(rt: HostRuntime) {
    let held = Reading {
        tank: 5,
        litres: 12_000,
    };
    assert_eq!(rt; held.code(), Ok(5_012_000));
    assert_eq!(rt; Reading::read(5_012_000), Some(held));
    assert_eq!(rt;
        Reading {
            tank: 99,
            litres: 999_999,
        }
        .code(),
        Ok(Reading::LARGEST)
    );
    assert_eq!(rt; Reading::read(100_000_000), None);
    assert_eq!(rt; Reading::read(999_999), None);
    for out in [
        Reading {
            tank: 5,
            litres: 1_000_000,
        },
        Reading { tank: 0, litres: 0 },
        Reading {
            tank: 100,
            litres: 0,
        },
        Reading {
            tank: u64::MAX,
            litres: u64::MAX,
        },
    ] {
        assert_eq!(rt; out.code(), Err(Denial::FigureRange));
    }
}

#[test]
fn orders(rt: HostRuntime) {
    let order = Order {
        from: 3,
        to: 5,
        litres: 8_000,
    };
    assert_eq!(rt; order.code(), Ok(305_008_000));
    assert_eq!(rt; Order::read(305_008_000), Some(order));
    assert_eq!(rt;
        Order {
            from: 99,
            to: 98,
            litres: 999_999,
        }
        .code(),
        Ok(Order::LARGEST)
    );
    assert_eq!(rt; Order::read(303_008_000), None);
    assert_eq!(rt; Order::read(305_000_000), None);
    for out in [
        Order {
            from: 3,
            to: 5,
            litres: 0,
        },
        Order {
            from: 3,
            to: 5,
            litres: 1_000_000,
        },
        Order {
            from: 3,
            to: 3,
            litres: 1,
        },
        Order {
            from: 0,
            to: 5,
            litres: 1,
        },
        Order {
            from: u64::MAX,
            to: 5,
            litres: 1,
        },
    ] {
        assert_eq!(rt; out.code(), Err(Denial::FigureRange));
    }
}
