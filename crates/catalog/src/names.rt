//! The form of names: which bytes they may have, how long they may be, and when two of them count as the same.
ghost use Rattle.std.specs.List.{list_all};
ghost use Rattle.std.specs.Prelude.{◌≡◌};
ghost use Rattle.catalog.specs.Names.{within, is_name_byte, is_name, is_short, are_distinct, is_same, is_parameter};

use crate::named::is_taken;
use exact_ratio::Words;

/// Whether `low <= n <= high`.
pub fn within(low: u64, high: u64, n: u64) -> bool
    ensures { result ≡ within low high n }
{
    low <= n && n <= high
}

fn is_name_byte(b: u8) -> bool
    ensures { result ≡ is_name_byte b }
{
    matches!(b, b'0'..=b'9' | b'A'..=b'Z' | b'a'..=b'z' | b'_' | b'-' | b'.' | b':')
}

fn are_name_bytes(text: &[u8]) -> bool
    ensures { result ≡ list_all is_name_byte text.now }
{
    text.iter().all(|b| is_name_byte(*b))
}

/// Whether a text is one or more letters, digits and `_`, `-`, `.`, `:`.
#[tactic(auto, unfolding(crate::specs::Names::is_name))]
pub fn is_name(text: &[u8]) -> bool
    ensures { result ≡ is_name text.now }
{
    !text.is_empty() && are_name_bytes(text)
}

/// Whether a text has at most 64 bytes.
pub fn is_short(text: &[u8]) -> bool
    ensures { result ≡ is_short text.now }
{
    text.len() <= 64
}

/// Whether each text is a name.
pub fn are_names(texts: &[Words]) -> bool
    ensures { result ≡ list_all is_name texts.now }
{
    for text in texts {
        if !is_name(text.bytes()) {
            return false;
        }
    }
    true
}

/// Whether each text has at most 64 bytes.
pub fn are_short(texts: &[Words]) -> bool
    ensures { result ≡ list_all is_short texts.now }
{
    for text in texts {
        if !is_short(text.bytes()) {
            return false;
        }
    }
    true
}

/// Whether no text stands twice.
pub fn are_distinct(texts: &[Words]) -> bool
    ensures { result ≡ are_distinct texts.now }
{
    let mut rest = texts;
    while let [text, others @ ..] = rest {
        if is_taken(others, text.bytes()) {
            return false;
        }
        rest = others;
    }
    true
}

/// Whether two texts are the same but for the case of ASCII letters.
pub fn is_same(a: &[u8], b: &[u8]) -> bool
    ensures { result ≡ is_same a.now b.now }
{
    a.eq_ignore_ascii_case(b)
}

/// Whether a text is a parameter of a GetTile query (OGC 07-057r7, section 7.2.2), in any case.
#[tactic(auto, unfolding(crate::specs::Names::is_parameter))]
pub fn is_parameter(text: &[u8]) -> bool
    ensures { result ≡ is_parameter text.now }
{
    is_same(b"service", text)
        || is_same(b"request", text)
        || is_same(b"version", text)
        || is_same(b"layer", text)
        || is_same(b"style", text)
        || is_same(b"format", text)
        || is_same(b"tilematrixset", text)
        || is_same(b"tilematrix", text)
        || is_same(b"tilerow", text)
        || is_same(b"tilecol", text)
}
