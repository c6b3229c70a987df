//! How a mark is written as the body of a record, and how it is read from one.
ghost use Rattle.std.specs.Int.{to_be_bytes, w64};
ghost use Rattle.std.specs.Prelude.{◌≡◌, ◌≤◌, ◌+◌, ◌++◌, Some, replicate};
ghost use Rattle.change_feed.specs.Marks.{mark_of, number_at};

use crate::mark::Mark;

/// The number in the 8 bytes from a place on, of which the first is the greatest.
fn number_at(body: &[u8; 63], at: usize) -> u64
    requires { at + 8 ≤ 63 }
    ensures { result ≡ number_at at body.now }
{
    let mut bytes = [0; 8];
    bytes.copy_from_slice(&body[at..at + 8]);
    u64::from_be_bytes(bytes)
}

/// The mark that a body spells; `None` where it spells none.
pub(crate) fn mark_of(body: &[u8; 63]) -> Option<Mark>
    ensures { result ≡ mark_of body.now }
{
    let ends = &body[16..63] == [0; 47].as_slice();
    if !ends {
        return None;
    }
    Some(Mark {
        number: number_at(body, 0),
        cut: number_at(body, 8),
    })
}

/// The bytes of a mark: its number, its cut, and 47 zeros.
fn mark_text(number: u64, cut: u64) -> [u8; 63]
    ensures { result ≡ to_be_bytes w64 number ++ to_be_bytes w64 cut ++ replicate 47 0 }
{
    let mut body = [0; 63];
    body[..8].copy_from_slice(&number.to_be_bytes());
    body[8..16].copy_from_slice(&cut.to_be_bytes());
    body
}

/// The body that spells a mark.
pub(crate) fn mark_body(mark: Mark) -> [u8; 63]
    ensures { mark_of result ≡ Some mark }
{
    mark_text(mark.number, mark.cut)
}
