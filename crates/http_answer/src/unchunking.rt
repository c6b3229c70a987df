//! The data of chunks, moved together within the bytes that came.
ghost use Rattle.std.specs.Prelude.{◌≡◌, length};
ghost use Rattle.http_answer.specs.Unchunking.{IsWithin, Unchunks};

use crate::chunks::{ChunkAt, chunk_at};

/// How far the chunks were taken.
#[derive(Clone, Copy)]
pub struct Cursor {
    /// How many bytes the body has so far: they stand at the front.
    pub to: usize,
    /// Where the next chunk begins.
    pub at: usize,
}

/// What came of taking chunks.
#[derive(Clone, Copy)]
pub enum Unchunked {
    /// The next chunk isn't whole yet.
    Open(Cursor),
    /// The body is whole: so many bytes at the front.
    Whole(usize),
    /// No chunk stands there.
    Broken,
}

/// Moves the data of the whole chunks from a place on behind those that stand at the front. It takes no memory.
fn unchunk_slice(bytes: &mut [u8], from: Cursor) -> Unchunked
    requires { IsWithin (length bytes.old) from }
    ensures len { length bytes.new ≡ length bytes.old }
    ensures unchunks { Unchunks bytes.old from bytes.new result }
{
    let mut to = from.to;
    let mut at = from.at;
    'chunks: loop {
        match chunk_at(bytes, at) {
            ChunkAt::Data(start, end) => {
                bytes.copy_within(start..end, to);
                to += end - start;
                at = end + 2;
            }
            ChunkAt::Last(_) => return Unchunked::Whole(to),
            ChunkAt::Open => return Unchunked::Open(Cursor { to, at }),
            ChunkAt::Broken => return Unchunked::Broken,
        }
    }
}

/// The same of all bytes that came.
pub fn unchunk(bytes: &mut Vec<u8>, from: Cursor) -> Unchunked
    requires { IsWithin (length bytes.old.items) from }
    ensures { Unchunks bytes.old.items from bytes.new.items result }
{
    unchunk_slice(bytes.as_mut_slice(), from)
}
