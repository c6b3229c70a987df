//! What the fields of a head say of the body's end.
ghost use Rattle.std.specs.Prelude.{◌≡◌, ◌≤◌, ℕ, List, length, map, All};
ghost use Rattle.std.specs.Str.{str_eq_ignore_ascii_case};
ghost use Rattle.http_answer.specs.Fields.{is_named, values, length_framing, coded_framing, framing_of, field_framing, IsLengthOf, AreValues};
ghost use Rattle.httparse.specs.Spans.{IsHeaderWithin, header_bytes};

use crate::fault::Misframed;
use httparse::spans::HeaderSpan;

/// How a body ends.
#[derive(Clone, Copy, Debug, PartialEq, Eq)]
pub enum Framing {
    /// After so many bytes.
    Length(u64),
    /// After the last chunk and the trailer.
    Chunked,
    /// With the stream.
    ToEnd,
}

/// The values of the fields of one name.
#[derive(Clone, Copy)]
enum NamedValues<'a> {
    Absent,
    Once(&'a [u8]),
    Several,
}

/// Whether two texts are the same without regard to ASCII case.
fn is_same(a: &[u8], b: &[u8]) -> bool
    ensures { result ≡ str_eq_ignore_ascii_case a.now b.now }
{
    a.eq_ignore_ascii_case(b)
}

/// Whether a field has that name.
fn is_field(bytes: &[u8], header: &HeaderSpan, name: &[u8]) -> bool
    requires { IsHeaderWithin (length bytes.now) header.now }
    ensures { result ≡ is_named name.now (header_bytes bytes.now header.now) }
{
    is_same(header.name.of(bytes), name)
}

/// The values of the fields of that name.
fn values_under<'a>(bytes: &'a [u8], headers: &[HeaderSpan], name: &[u8]) -> NamedValues<'a>
    requires { All (IsHeaderWithin (length bytes.now)) headers.now }
    ensures { AreValues (values name.now (map (header_bytes bytes.now) headers.now)) result }
{
    let mut found = None;
    for header in headers {
        if is_field(bytes, header, name) {
            if found.is_some() {
                return NamedValues::Several;
            }
            found = Some(header.value.of(bytes));
        }
    }
    match found {
        Some(value) => NamedValues::Once(value),
        None => NamedValues::Absent,
    }
}

/// The number that 1 to 18 digits write; `None` for any other text.
fn length_of(text: &[u8]) -> Option<u64>
    ensures { IsLengthOf text.now result }
{
    if text.is_empty() || text.len() > 18 {
        return None;
    }
    let mut number = 0;
    for digit in text {
        if !digit.is_ascii_digit() {
            return None;
        }
        number = number * 10 + u64::from(*digit - b'0');
    }
    Some(number)
}

/// How the body ends that has no coding.
fn length_framing(length: NamedValues) -> Result<Framing, Misframed>
    ensures { (lengths : List (List ℕ)) → AreValues lengths length.entry → result ≡ length_framing lengths }
{
    match length {
        NamedValues::Absent => Ok(Framing::ToEnd),
        NamedValues::Once(text) => match length_of(text) {
            Some(size) => Ok(Framing::Length(size)),
            None => Err(Misframed::NotALength),
        },
        NamedValues::Several => Err(Misframed::TwoLengths),
    }
}

/// How the body ends that has this coding, and no length.
fn coded_framing(minor: u8, coding: &[u8]) -> Result<Framing, Misframed>
    ensures { result ≡ coded_framing minor coding.now }
{
    if minor == 1 && is_same(coding, b"chunked") {
        return Ok(Framing::Chunked);
    }
    Err(Misframed::OtherCoding)
}

/// How the body ends that these values frame.
fn framing_by(minor: u8, length: NamedValues, coding: NamedValues) -> Result<Framing, Misframed>
    ensures { (lengths codings : List (List ℕ)) → AreValues lengths length.entry → AreValues codings coding.entry → result ≡ framing_of minor lengths codings }
{
    match coding {
        NamedValues::Absent => length_framing(length),
        NamedValues::Once(coding) => match length {
            NamedValues::Absent => coded_framing(minor, coding),
            NamedValues::Once(_) => Err(Misframed::LengthBesideCoding),
            NamedValues::Several => Err(Misframed::LengthBesideCoding),
        },
        NamedValues::Several => match length {
            NamedValues::Absent => Err(Misframed::OtherCoding),
            NamedValues::Once(_) => Err(Misframed::LengthBesideCoding),
            NamedValues::Several => Err(Misframed::LengthBesideCoding),
        },
    }
}

/// How the body ends that follows a head of HTTP/1.0 or 1.1, as the minor version says, with these fields (RFC 9112, section 6).
pub fn framing_of(bytes: &[u8], headers: &[HeaderSpan], minor: u8) -> Result<Framing, Misframed>
    requires { All (IsHeaderWithin (length bytes.now)) headers.now }
    ensures { result ≡ field_framing minor (map (header_bytes bytes.now) headers.now) }
{
    let length = values_under(bytes, headers, b"content-length");
    let coding = values_under(bytes, headers, b"transfer-encoding");
    framing_by(minor, length, coding)
}
