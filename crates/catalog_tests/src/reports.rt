//! Tests of exception_report.
use exact_ratio::Words;
use exception_report::{Code, Locator, report, status_of};
use std::alloc::{AllocError, Global};
use std::test::Fail;

/// Whether the report of a code at a value has this text.
fn is_report(alloc: Global, code: Code, value: &str, expected: &str) -> Result<bool, AllocError> {
    let value = Locator::At(Words::new(alloc, value.as_bytes())?);
    let text = report(alloc, code, &value)?;
    Ok(text.as_slice() == expected.as_bytes())
}

#[test]
fn a_report_has_its_code_and_its_locator_escaped(rt: HostRuntime) -> Result<(), Fail> {
    let value = "a&<>\"\n\u{fffe}\u{ffff}\u{fffd}";
    let expected =
        "<?xml version=\"1.0\" encoding=\"UTF-8\"?>\n<ExceptionReport xmlns=\"http://www.opengis.net/ows/1.1\" version=\"1.1.0\">\n<Exception exceptionCode=\"OperationNotSupported\" locator=\"a&amp;&lt;&gt;&quot;???\u{fffd}\"/>\n</ExceptionReport>\n";
    assert!(rt; is_report(rt.alloc(), Code::OperationNotSupported, value, expected)?);
    let text = report(rt.alloc(), Code::NoApplicableCode, &Locator::Nowhere)?;
    assert!(rt; text.len() == 177);
    assert!(rt; status_of(Code::OperationNotSupported) == 501);
    Ok(())
}
