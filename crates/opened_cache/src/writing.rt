//! The text of a word, written to its output.
ghost use Rattle.std.specs.Prelude.{◌≡◌, ◌≤◌, ◌++◌, decimal, length};
ghost use Rattle.arrayvec.specs.ArrayVec.{array_vec_len};
ghost use Rattle.opened_cache.specs.Texts.{Sends};
ghost use Rattle.sessions.specs.Outside.{OutputChange, counts};

use arrayvec::ArrayVec;
use command_status::Status;
use http_wire::ByteSink;
use tile_requests::{add, add_number, send_behind};

/// Writes the text of a word, in two parts: `Done` where all of it went out, `WriteFault` where a write failed.
pub fn write_text<O: ByteSink>(output: &mut O, front: ArrayVec<u8, 1024>, rest: &[u8]) -> Status
    requires { array_vec_len front ≤ 512 }
    ensures { Sends (record { writes = counts (O.faults output.old) (O.faults output.new); from = O.taken output.old; to = O.taken output.new }) (front.items ++ rest.now) result }
{
    match send_behind(output, front, rest) {
        Ok(()) => Status::Done,
        Err(_) => Status::WriteFault,
    }
}

/// A label and a number after it. It takes no memory.
pub fn number_text(label: &[u8], number: u64) -> ArrayVec<u8, 1024>
    requires { length label.now ≤ 100 }
    ensures items { result.items ≡ label.now ++ decimal number }
    ensures short { array_vec_len result ≤ 512 }
{
    let mut text = ArrayVec::new();
    add(&mut text, label);
    add_number(&mut text, number);
    text
}
