//! The template of a renderer's URL.
ghost use Rattle.std.specs.Prelude.{◌≡◌, ◌≤◌, length, drop, MatchOption, true, false};
ghost use Rattle.window_request.specs.Templates.{is_http, Reads, ReadsTarget};

use crate::address::address_of;
use crate::fault::TemplateFault;
use crate::piece::{Piece, TemplateStep, len_until, next_step};
use std::alloc::{AllocError, Global};

/// The template of a renderer's URL: `http://HOST[:PORT]/PATH?QUERY`, with names in braces.
#[derive(Drop)]
pub struct Template {
    /// `HOST[:PORT]`, as it stands in the URL.
    pub authority: Vec<u8>,
    pub host: Vec<u8>,
    pub port: u16,
    /// The path and the query, in pieces.
    pub pieces: Vec<Piece>,
}

/// The pieces of a target that begins at a place of the template.
fn pieces_of(alloc: Global, text: &[u8], start: usize) -> Result<Vec<Piece>, TemplateFault>
    requires { start ≤ length text.now }
    ensures { ReadsTarget text.now start result }
{
    let mut pieces = Vec::new(alloc);
    let mut at = start;
    'reading: while at < text.len() {
        match next_step(alloc, &text[at..])? {
            TemplateStep::Piece(piece, len) => {
                pieces.push(piece)?;
                at += len;
            }
            TemplateStep::Byte => return Err(TemplateFault::Byte(at)),
            TemplateStep::OpenBrace => return Err(TemplateFault::OpenBrace(at)),
            TemplateStep::UnknownName => return Err(TemplateFault::UnknownName(at)),
        }
    }
    Ok(pieces)
}

/// What follows `http://`; `None` where the text doesn't begin so.
fn behind_scheme(text: &[u8]) -> Option<&[u8]>
    ensures { MatchOption result (is_http text.now ≡ false) (λ behind. (is_http text.now ≡ true) × (behind.now ≡ drop 7 text.now)) }
{
    text.strip_prefix(b"http://")
}

impl Template {
    /// Reads a template. Each fault but the want of memory tells what stands where.
    pub fn read(alloc: Global, text: &[u8]) -> Result<Template, TemplateFault>
        ensures { Reads text.now result }
    {
        let Some(behind) = behind_scheme(text) else {
            return Err(TemplateFault::Scheme);
        };
        let len = len_until(behind, b'/');
        let authority = &behind[..len];
        let Some(address) = address_of(authority) else {
            return Err(TemplateFault::Authority);
        };
        if len == behind.len() {
            return Err(TemplateFault::NoPath);
        }
        let pieces = pieces_of(alloc, text, SCHEME_LEN + len)?;
        Ok(Template {
            authority: Vec::from_slice(alloc, authority)?,
            host: Vec::from_slice(alloc, address.host)?,
            port: address.port,
            pieces,
        })
    }
}

/// The length of `http://`.
const SCHEME_LEN: usize = 7;
