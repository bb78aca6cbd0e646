//! The values are worked out by hand.

use crate::{
    AmountError, Cents, List, NumberError, ProductKey, Quantity, RequestId, line_amount,
    read_number, read_wide_number,
};
use std::cmp::Ordering;
use std::test::Fail;

#[test]
fn lines_cost(rt: HostRuntime) -> Result<(), Fail> {
    for (price, quantity, freight, voucher, amount) in [
        (1000, 2, 50, 100, 1950),
        (10, 1, 0, 1000, 0),
        (10, 3, 7, 30, 7),
        (1_000_000_000, 1000, 1_000_000_000, 0, 1_001_000_000_000),
    ] {
        let price = Cents::try_new(price)?;
        let quantity = Quantity::try_new(quantity)?;
        let freight = Cents::try_new(freight)?;
        let voucher = Cents::try_new(voucher)?;
        assert_eq!(rt;
            line_amount(price, quantity, freight, voucher),
            amount,
            "at {price:?}, {quantity:?}"
        );
    }
    Ok(())
}

#[test]
fn ranges(rt: HostRuntime) {
    for (value, taken) in [
        (0, Ok(0)),
        (1_000_000_000, Ok(1_000_000_000)),
        (1_000_000_001, Err(AmountError::TooLarge)),
    ] {
        assert_eq!(rt; Cents::try_new(value).map(Cents::get), taken, "at {value}");
    }
    for (value, taken) in [
        (0, Err(AmountError::Zero)),
        (1, Ok(1)),
        (1000, Ok(1000)),
        (1001, Err(AmountError::TooLarge)),
    ] {
        assert_eq!(rt;
            Quantity::try_new(value).map(Quantity::get),
            taken,
            "at {value}"
        );
    }
}

#[test]
fn numbers_are_read(rt: HostRuntime) {
    for (text, limit, number) in [
        ("", 100, Err(NumberError::Empty)),
        ("1a", 100, Err(NumberError::NotDigit(1))),
        ("0a", 100, Err(NumberError::NotDigit(1))),
        ("+1", 100, Err(NumberError::NotDigit(0))),
        ("007", 100, Err(NumberError::LeadingZero)),
        ("0101", 100, Err(NumberError::LeadingZero)),
        ("101", 100, Err(NumberError::TooLarge)),
        ("0", 100, Ok(0)),
        ("100", 100, Ok(100)),
        ("18446744073709551615", u64::MAX, Ok(u64::MAX)),
        ("18446744073709551616", u64::MAX, Err(NumberError::TooLarge)),
    ] {
        assert_eq!(rt; read_number(text.as_bytes(), limit), number, "at {text}");
    }
}

#[test]
fn wide_numbers_are_read(rt: HostRuntime) {
    for (text, number) in [
        ("", Err(NumberError::Empty)),
        ("007", Err(NumberError::LeadingZero)),
        ("0", Ok(0)),
        ("340282366920938463463374607431768211455", Ok(u128::MAX)),
        (
            "340282366920938463463374607431768211456",
            Err(NumberError::TooLarge),
        ),
        (
            "1000000000000000000000000000000000000000",
            Err(NumberError::TooLarge),
        ),
    ] {
        assert_eq!(rt;
            read_wide_number(text.as_bytes(), u128::MAX),
            number,
            "at {text}"
        );
    }
}

#[test]
fn keys_are_ordered(rt: HostRuntime) {
    let first = ProductKey {
        seller: 1,
        product: 9,
    };
    let second = ProductKey {
        seller: 2,
        product: 3,
    };
    assert_eq!(rt; first.cmp(&second), Ordering::Less);
    let first = RequestId {
        caller: 1,
        number: 9,
    };
    let second = RequestId {
        caller: 2,
        number: 3,
    };
    assert_eq!(rt; second.cmp(&first), Ordering::Greater);
}

#[test]
fn lists(rt: HostRuntime) -> Result<(), Fail> {
    let low = List::from_vec(vec![in rt.alloc(); 3u32, 1, 4]?);
    let high = List::from_slice(rt.alloc(), [3u32, 2].as_slice())?;
    assert_eq!(rt; low.as_slice(), [3u32, 1, 4].as_slice());
    let copy = low.try_copy()?;
    assert!(rt; copy == low);
    assert!(rt; copy != high);
    assert_eq!(rt; low.cmp(&high), Ordering::Less);
    assert_eq!(rt; high.partial_cmp(&low), Some(Ordering::Greater));
    assert_eq!(rt; copy.into_vec().as_slice(), [3u32, 1, 4].as_slice());
    Ok(())
}
