//! Texts of at most 1,024 bytes that take no memory: the line of an answer, the head of a response, the lines of a summary.
ghost use Rattle.std.specs.Io.KnownBytes.{Appends};
ghost use Rattle.std.specs.Prelude.{◌≡◌, ◌+◌, ◌≤◌, ◌++◌, length, decimal, OnErr, OnOk};
ghost use Rattle.arrayvec.specs.ArrayVec.{array_vec_len};
ghost use Rattle.base.specs.Causes.{HasCause};
ghost use Rattle.tile_requests.specs.Sent.{AppendsFront};

use arrayvec::ArrayVec;
use http_wire::{ByteSink, Sent, send, send_both};
use itoa::Buffer;

/// The most bytes of a body that is sent in one piece with what stands before it, since each write of its own costs a
/// packet.
const SMALL_BODY: usize = 512;

/// Adds bytes for which there is room.
pub fn add(text: &mut ArrayVec<u8, 1024>, bytes: &[u8])
    requires { array_vec_len text.old + length bytes.now ≤ 1024 }
    ensures items { text.new.items ≡ text.old.items ++ bytes.now }
    ensures len { array_vec_len text.new ≡ array_vec_len text.old + length bytes.now }
{
    if text.try_extend_from_slice(bytes).is_err() {
        unreachable!()
    }
}

/// Adds a number in decimal digits.
pub fn add_number(text: &mut ArrayVec<u8, 1024>, number: u64)
    requires { array_vec_len text.old + 20 ≤ 1024 }
    ensures items { text.new.items ≡ text.old.items ++ decimal number }
    ensures len { array_vec_len text.new ≤ array_vec_len text.old + 20 }
{
    let mut buffer = Buffer::new();
    add(text, buffer.format(number).as_bytes());
}

/// Sends a text and then a body, which is not copied unless it is small. `Sent` where a write failed.
pub fn send_behind<O: ByteSink>(
    sink: &mut O,
    mut front: ArrayVec<u8, 1024>,
    body: &[u8],
) -> Result<(), Sent>
    requires { array_vec_len front ≤ 512 }
    ensures ok { OnOk result (Appends (O.taken sink.old) (O.taken sink.new) (front.items ++ body.now)) }
    ensures err { OnErr result (AppendsFront (O.taken sink.old) (O.taken sink.new) (front.items ++ body.now)) }
    ensures cause { HasCause (O.faults sink.old) (O.faults sink.new) result }
    ensures apart { O.apart sink.new ≡ O.apart sink.old }
{
    if body.len() > SMALL_BODY {
        return send_both(sink, front.as_slice(), body);
    }
    add(&mut front, body);
    send(sink, front.as_slice())
}
