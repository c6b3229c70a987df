//! Tests of exact_ratio.
use exact_ratio::{Decimal, DecimalFault, Items, Ratio, Words, floor_div};
use std::alloc::{AllocError, Global};
use std::test::Fail;

const LONG: Decimal = Decimal {
    units: 2_132_729_583_849_784,
    places: 12,
};

const NEGATIVE: Decimal = Decimal {
    units: -5,
    places: 1,
};

/// Whether a text is read so.
fn is_read(text: &[u8], expected: Result<Decimal, DecimalFault>) -> bool {
    Decimal::read(text) == expected
}

#[test]
fn a_text_is_a_decimal_or_has_its_first_fault(rt: HostRuntime) {
    assert!(rt; is_read(b"2132.729583849784", Ok(LONG)));
    assert!(rt; is_read(b"-0.5", Ok(NEGATIVE)));
    assert!(rt; is_read(b"", Err(DecimalFault::Empty)));
    assert!(rt; is_read(b"-", Err(DecimalFault::Empty)));
    assert!(rt; is_read(b"1.", Err(DecimalFault::NotADigit(2))));
    assert!(rt; is_read(b"1.5x", Err(DecimalFault::NotADigit(3))));
    assert!(rt; is_read(b".5", Err(DecimalFault::NotADigit(0))));
    assert!(rt; is_read(b"1234567890123456789", Err(DecimalFault::TooLong)));
    assert!(rt; is_read(b"1234567890123456789x", Err(DecimalFault::NotADigit(19))));
}

#[test]
fn a_fraction_comes_to_lowest_terms(rt: HostRuntime) {
    for (n, d, expected) in [
        (-6, 4, Some(Ratio::lowest(-3, 2))),
        (0, 7, Some(Ratio::whole(0))),
        (1, 0, None),
        (i128::MIN, 1, None),
    ] {
        assert!(rt; Ratio::new(n, d) == expected);
    }
    assert!(rt; floor_div(-7, 2) == -4);
}

/// Whether words of these bytes have them.
fn gives_back(alloc: Global, bytes: &[u8]) -> Result<bool, AllocError> {
    let words = Words::new(alloc, bytes)?;
    Ok(words.bytes() == bytes)
}

#[test]
fn containers_give_back_what_they_took(rt: HostRuntime) -> Result<(), Fail> {
    assert!(rt; gives_back(rt.alloc(), b"demo")?);
    let items = Items::of(vec![in rt.alloc(); 3, 5]?);
    assert!(rt; items.get(1) == Some(&5));
    assert!(rt; Items::of(items.into_vec()).len() == 2);
    Ok(())
}
