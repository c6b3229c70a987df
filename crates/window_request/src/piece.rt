//! The pieces of a template: text that is sent as it is, and names in braces.
ghost use Rattle.std.specs.List.{list_all, prefix_len};
ghost use Rattle.std.specs.Prelude.{◌≡◌, ◌<◌, ◌≤◌, ◌∷◌, ◌++◌, length, IfOk, true, codes};
ghost use Rattle.window_request.specs.Pieces.{is_plain, differs, NamesPiece, StepsTo};

use crate::field::{TemplateField, field_named};
use std::alloc::{AllocError, Global};

/// A piece of a template.
#[derive(Drop)]
pub enum Piece {
    /// Text that is sent as it is.
    Plain(Vec<u8>),
    /// `{name}`: the value of that name.
    Field(TemplateField),
    /// `{dim:NAME}`: the value of the dimension of that name.
    Dimension(Vec<u8>),
}

/// What stands at a place of a target.
#[derive(Drop)]
pub enum TemplateStep {
    /// A piece of so many bytes.
    Piece(Piece, usize),
    /// A byte that isn't sent as it is.
    Byte,
    /// A brace that isn't closed.
    OpenBrace,
    /// A name in braces that stands for nothing.
    UnknownName,
}

/// Whether a byte is sent as it is: a visible one of ASCII that is no brace and no `#`.
fn is_plain(byte: u8) -> bool
    ensures { result ≡ is_plain byte }
{
    b' ' < byte && byte < 0x7f && byte != b'#' && byte != b'{' && byte != b'}'
}

/// How many bytes at the front are sent as they are.
fn plain_len(text: &[u8]) -> usize
    ensures count { result ≡ prefix_len is_plain text.now }
    ensures within { result ≤ length text.now }
{
    for at in 0..text.len() {
        if !is_plain(text[at]) {
            return at;
        }
    }
    text.len()
}

/// How many bytes stand before the first one that is this; all where there is none.
pub fn len_until(text: &[u8], byte: u8) -> usize
    ensures count { result ≡ prefix_len (differs byte) text.now }
    ensures within { result ≤ length text.now }
{
    for at in 0..text.len() {
        if text[at] == byte {
            return at;
        }
    }
    text.len()
}

/// The dimension that a name in braces gives behind `dim:`; `None` where nothing follows that.
fn dimension(alloc: Global, name: &[u8], id: &[u8]) -> Result<Option<Piece>, AllocError>
    requires closed { list_all (differs 125) name.now ≡ true }
    requires is { name.now ≡ codes "dim:" ++ id.now }
    ensures { IfOk result (NamesPiece name.now) }
{
    if id.is_empty() {
        return Ok(None);
    }
    Ok(Some(Piece::Dimension(Vec::from_slice(alloc, id)?)))
}

/// The piece that a name in braces is; `None` where it stands for nothing.
fn named_piece(alloc: Global, name: &[u8]) -> Result<Option<Piece>, AllocError>
    requires { list_all (differs 125) name.now ≡ true }
    ensures { IfOk result (NamesPiece name.now) }
{
    if let Some(id) = name.strip_prefix(b"dim:") {
        return dimension(alloc, name, id);
    }
    match field_named(name) {
        Some(field) => Ok(Some(Piece::Field(field))),
        None => Ok(None),
    }
}

/// What stands where a brace opens, before this text.
fn braced(alloc: Global, more: &[u8]) -> Result<TemplateStep, AllocError>
    ensures { IfOk result (StepsTo (123 ∷ more.now)) }
{
    let len = len_until(more, b'}');
    if len == more.len() {
        return Ok(TemplateStep::OpenBrace);
    }
    match named_piece(alloc, &more[..len])? {
        Some(piece) => Ok(TemplateStep::Piece(piece, len + 2)),
        None => Ok(TemplateStep::UnknownName),
    }
}

/// The plain piece at the front, which has a byte.
fn plain(alloc: Global, text: &[u8], len: usize) -> Result<TemplateStep, AllocError>
    requires count { len ≡ prefix_len is_plain text.now }
    requires within { len ≤ length text.now }
    requires some { 0 < len }
    ensures { IfOk result (StepsTo text.now) }
{
    let plain = Vec::from_slice(alloc, &text[..len])?;
    Ok(TemplateStep::Piece(Piece::Plain(plain), len))
}

/// What stands at the front of a target. `AllocError` where memory runs out.
pub fn next_step(alloc: Global, text: &[u8]) -> Result<TemplateStep, AllocError>
    requires { 0 < length text.now }
    ensures { IfOk result (StepsTo text.now) }
{
    if let [b'{', more @ ..] = text {
        return braced(alloc, more);
    }
    let len = plain_len(text);
    if len == 0 {
        return Ok(TemplateStep::Byte);
    }
    plain(alloc, text, len)
}
