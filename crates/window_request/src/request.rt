//! The request for a window: the template's target with the values of the window, and the fields that go with it.
ghost use Rattle.std.specs.List.{flat_map};
ghost use Rattle.std.specs.Prelude.{◌≡◌, ◌++◌, IfOk, OnOk};
ghost use Rattle.window_request.specs.Requests.{is_unreserved, encoded_byte, encoded, filled, target_of, request_of};

use crate::piece::Piece;
use crate::template::Template;
use crate::values::{Values, dimension_in, value_of};
use percent_encoding::percent_encode_byte;
use std::alloc::{AllocError, Global};

/// Whether a byte stands for itself in a URL (RFC 3986, section 2.3).
fn is_unreserved(byte: u8) -> bool
    ensures { result ≡ is_unreserved byte }
{
    byte.is_ascii_alphanumeric() || byte == b'-' || byte == b'.' || byte == b'_' || byte == b'~'
}

fn push_byte(text: &mut Vec<u8>, byte: u8) -> Result<(), AllocError>
    ensures { OnOk result (text.new.items ≡ text.old.items ++ encoded_byte byte) }
{
    if is_unreserved(byte) {
        return text.extend_from_slice(&[byte]);
    }
    text.extend_from_slice(percent_encode_byte(byte).as_bytes())
}

/// Appends a value, with each byte escaped that isn't unreserved.
fn push_value(text: &mut Vec<u8>, value: &[u8]) -> Result<(), AllocError>
    ensures { OnOk result (text.new.items ≡ text.old.items ++ encoded value.now) }
{
    for byte in value {
        push_byte(text, *byte)?;
    }
    Ok(())
}

fn push_piece(text: &mut Vec<u8>, piece: &Piece, values: &Values) -> Result<(), AllocError>
    ensures { OnOk result (text.new.items ≡ text.old.items ++ filled values.now piece.now) }
{
    match piece {
        Piece::Plain(plain) => text.extend_from_slice(plain.as_slice()),
        Piece::Field(field) => push_value(text, value_of(values, *field)),
        Piece::Dimension(name) => {
            push_value(text, dimension_in(values.dimensions, name.as_slice()))
        }
    }
}

fn push_pieces(text: &mut Vec<u8>, pieces: &[Piece], values: &Values) -> Result<(), AllocError>
    ensures { OnOk result (text.new.items ≡ text.old.items ++ flat_map (filled values.now) pieces.now) }
{
    for piece in pieces {
        push_piece(text, piece, values)?;
    }
    Ok(())
}

impl Template {
    /// The target of a request, in its escaped form: the path and the query with these values. `AllocError` where memory runs out.
    pub fn target(&self, alloc: Global, values: &Values) -> Result<Vec<u8>, AllocError>
        ensures { IfOk result (λ text. text.items ≡ target_of self.now values.now) }
    {
        let mut text = Vec::new(alloc);
        push_pieces(&mut text, self.pieces.as_slice(), values)?;
        Ok(text)
    }

    /// The whole text of a request for a pixmap (RFC 9112, section 3), after which the connection is to be closed, by a
    /// `tile_server` of this version. `AllocError` where memory runs out.
    #[tactic(auto, unfolding(crate::specs::Requests::request_of))]
    pub fn request(
        &self,
        alloc: Global,
        values: &Values,
        version: &[u8],
    ) -> Result<Vec<u8>, AllocError>
        ensures { IfOk result (λ text. text.items ≡ request_of self.now values.now version.now) }
    {
        let target = self.target(alloc, values)?;
        let mut text = Vec::from_slice(alloc, BEFORE_TARGET)?;
        text.extend_from_slice(target.as_slice())?;
        text.extend_from_slice(BEFORE_HOST)?;
        text.extend_from_slice(self.authority.as_slice())?;
        text.extend_from_slice(BEFORE_VERSION)?;
        text.extend_from_slice(version)?;
        text.extend_from_slice(AFTER_VERSION)?;
        Ok(text)
    }
}

const BEFORE_TARGET: &[u8] = b"GET ";

const BEFORE_HOST: &[u8] = b" HTTP/1.1\r\nHost: ";

const BEFORE_VERSION: &[u8] =
    b"\r\nAccept: image/x-portable-pixmap\r\nConnection: close\r\nUser-Agent: tile_server/";

const AFTER_VERSION: &[u8] = b"\r\n\r\n";
