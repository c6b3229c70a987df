//! Tests of json_forms.
use exact_ratio::Decimal;
use json_forms::{DecimalText, decimal_text, object_in, values_of};
use std::alloc::Global;
use std::test::Fail;

/// How many values the list has that a member of a text's object is.
fn length_of(alloc: Global, text: &[u8], name: &str) -> Result<usize, Fail> {
    let object = object_in(alloc, text)?.ok_or("no object")?;
    let member = object.get(name).ok_or("no member")?;
    let values = values_of(member).ok_or("no list")?;
    Ok(values.len())
}

/// Whether a text is no object.
fn is_none(alloc: Global, text: &[u8]) -> Result<bool, Fail> {
    Ok(object_in(alloc, text)?.is_none())
}

#[test]
fn one_object_is_read(rt: HostRuntime) -> Result<(), Fail> {
    let text = b" {\"a\": [1, 2], \"b\": 3} ";
    assert!(rt; length_of(rt.alloc(), text, "a")? == 2);
    for text in ["", "{", "[]", "{} {}", "{}x"] {
        assert!(rt; is_none(rt.alloc(), text.as_bytes())?);
    }
    Ok(())
}

#[test]
fn decimal_texts_are_read(rt: HostRuntime) -> Result<(), Fail> {
    let text = b"{\"a\": \"-1.50\", \"b\": \"1234567890123456789\", \"c\": \"1e3\", \"d\": 1}";
    let object = object_in(rt.alloc(), text)?.ok_or("no object")?;
    let number = Decimal {
        units: -150,
        places: 2,
    };
    for (name, expected) in [
        ("a", Some(DecimalText::Number(number))),
        ("b", Some(DecimalText::TooLong)),
        ("c", None),
        ("d", None),
    ] {
        let value = object.get(name).ok_or("no member")?;
        assert!(rt; decimal_text(value) == expected);
    }
    Ok(())
}
