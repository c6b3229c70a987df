//! A body that is being written, one field after the other.
ghost use Rattle.std.specs.Prelude.{◌≡◌, ◌+◌, ◌≤◌, ◌<◌, ◌^◌, ◌++◌, ◌∷◌, [], length};
ghost use Rattle.byteorder.specs.Endian.{big_bytes};
ghost use Rattle.record_text.specs.Spelling.{filled};

use byteorder::{BigEndian, ByteOrder};
use std::marker::Model;

/// A body that is being written from left to right. Contracts see it as the bytes that are written.
#[derive(Drop)]
pub(crate) struct Draft {
    body: [u8; 63],
    end: usize,
}

impl Model for Draft {
    ghost use Rattle.std.specs.Prelude.{ℕ, ◌≡◌, ◌≤◌, ◌-◌, ◌++◌, List, take, replicate};

    ghost Value = { List ℕ };

    ghost view = { λ d. take d.end d.body };

    ghost invariant = { λ d. (d.end ≤ 63) × (d.body ≡ take d.end d.body ++ replicate (63 - d.end) 0) };
}

impl Draft {
    /// A draft of one byte, the kind of a record.
    pub(crate) fn of_kind(kind: u8) -> Draft
        ensures { result ≡ kind ∷ [] }
    {
        let mut body = [0; 63];
        body[0] = kind;
        Draft { body, end: 1 }
    }

    /// The draft with a number of `width` bytes at its end.
    pub(crate) fn number(self, value: u64, width: usize) -> Draft
        requires low { 1 ≤ width }
        requires high { width ≤ 8 }
        requires fits { value < 256 ^ width }
        requires room { length self + width ≤ 63 }
        ensures bytes { result ≡ self ++ big_bytes width value }
        ensures size { length result ≡ length self + width }
    {
        let Draft { mut body, end } = self;
        BigEndian::write_uint(&mut body[end..], value, width);
        Draft {
            body,
            end: end + width,
        }
    }

    /// The body: what is written, and zeros.
    pub(crate) fn body(self) -> [u8; 63]
        ensures { result ≡ filled self }
    {
        self.body
    }
}
