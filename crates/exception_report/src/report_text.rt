//! The exception report as XML, and the status of HTTP that goes with its code.
ghost use Rattle.std.specs.Prelude.{◌≡◌, IfOk};
ghost use Rattle.exception_report.specs.Report.{code_text, locator_text, report_of};
ghost use Rattle.exception_report.specs.Status.{status_of};

use crate::code::{Code, Locator};
use crate::escape::escape_onto;
use std::alloc::{AllocError, Global};

/// The name of a code, as the standards spell it.
fn code_text(code: Code) -> &'static [u8]
    ensures { result.now ≡ code_text code }
{
    match code {
        Code::OperationNotSupported => b"OperationNotSupported",
        Code::MissingParameterValue => b"MissingParameterValue",
        Code::InvalidParameterValue => b"InvalidParameterValue",
        Code::TileOutOfRange => b"TileOutOfRange",
        Code::NoApplicableCode => b"NoApplicableCode",
    }
}

/// The text of the locator's attribute, with the blank before it; empty where there is no locator.
fn locator_text(alloc: Global, locator: &Locator) -> Result<Vec<u8>, AllocError>
    ensures { IfOk result (λ v. v.items ≡ locator_text locator.now) }
{
    let mut text = Vec::new(alloc);
    if let Locator::At(name) = locator {
        text.extend_from_slice(b" locator=\"")?;
        escape_onto(&mut text, name.bytes())?;
        text.extend_from_slice(b"\"")?;
    }
    Ok(text)
}

/// The exception report of a code and a locator (OGC 06-121r3, section 8): four lines of XML in UTF-8, with the locator
/// escaped. `AllocError` where memory runs out.
#[tactic(auto, unfolding(crate::specs::Report::report_of))]
pub fn report(alloc: Global, code: Code, locator: &Locator) -> Result<Vec<u8>, AllocError>
    ensures { IfOk result (λ v. v.items ≡ report_of code locator.now) }
{
    let attribute = locator_text(alloc, locator)?;
    let mut text = Vec::from_slice(alloc, FRONT)?;
    text.extend_from_slice(code_text(code))?;
    text.extend_from_slice(b"\"")?;
    text.extend_from_slice(attribute.as_slice())?;
    text.extend_from_slice(BACK)?;
    Ok(text)
}

const FRONT: &[u8] =
    b"<?xml version=\"1.0\" encoding=\"UTF-8\"?>\n<ExceptionReport xmlns=\"http://www.opengis.net/ows/1.1\" version=\"1.1.0\">\n<Exception exceptionCode=\"";

const BACK: &[u8] = b"/>\n</ExceptionReport>\n";

/// The status of HTTP that a report of this code is sent with (OGC 07-057r7, section 8, and RFC 9110, section 15).
pub fn status_of(code: Code) -> u16
    ensures { result ≡ status_of code }
{
    match code {
        Code::OperationNotSupported => 501,
        Code::MissingParameterValue | Code::InvalidParameterValue | Code::TileOutOfRange => 400,
        Code::NoApplicableCode => 500,
    }
}
