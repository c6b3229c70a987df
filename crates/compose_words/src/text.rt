//! The texts of answers, sent.
ghost use Rattle.std.specs.Prelude.{◌≡◌, ◌+◌, ◌*◌, ◌≤◌, ◌++◌, codes, decimal, flat_map, length};
ghost use Rattle.arrayvec.specs.ArrayVec.{array_vec_len};
ghost use Rattle.compose_words.specs.Texts.{HasFewParts, answer_text, joined, one_number, tile_head, tile_text, two_numbers};
ghost use Rattle.compose_words.specs.Written.{IsSent, OutputChange};
ghost use Rattle.sessions.specs.Outside.{counts};

use crate::reply::CompositionReply;
use arrayvec::ArrayVec;
use http_wire::ByteSink;
use tile_requests::{add, add_number, send_behind};

/// A label and a number after it.
fn label_number(label: &[u8], number: u64) -> ArrayVec<u8, 1024>
    requires { length label.now ≤ 100 }
    ensures items { result.items ≡ label.now ++ decimal number }
    ensures short { array_vec_len result ≤ 120 }
{
    let mut text = ArrayVec::new();
    add(&mut text, label);
    add_number(&mut text, number);
    text
}

/// Sends a text in two parts; whether all of it went out, or a write failed.
fn send_text<O: ByteSink>(output: &mut O, front: ArrayVec<u8, 1024>, rest: &[u8]) -> bool
    requires { array_vec_len front ≤ 512 }
    ensures sent { IsSent (record { writes = counts (O.faults output.old) (O.faults output.new); from = O.taken output.old; to = O.taken output.new }) (front.items ++ rest.now) result }
    ensures later { O.faults output.old ≤ O.faults output.new }
{
    match send_behind(output, front, rest) {
        Ok(()) => true,
        Err(_) => false,
    }
}

/// Sends a label with the number of a line.
#[tactic(auto, unfolding(crate::specs::Texts::one_number))]
fn send_one<O: ByteSink>(output: &mut O, label: &[u8], number: u64) -> bool
    requires { length label.now ≤ 100 }
    ensures sent { IsSent (record { writes = counts (O.faults output.old) (O.faults output.new); from = O.taken output.old; to = O.taken output.new }) (one_number label.now number) result }
    ensures later { O.faults output.old ≤ O.faults output.new }
{
    send_text(output, label_number(label, number), b"\n")
}

/// Sends a label with the number of a line and another number.
#[tactic(auto, unfolding(crate::specs::Texts::two_numbers))]
fn send_two<O: ByteSink>(output: &mut O, label: &[u8], number: u64, other: u64) -> bool
    requires { length label.now ≤ 100 }
    ensures sent { IsSent (record { writes = counts (O.faults output.old) (O.faults output.new); from = O.taken output.old; to = O.taken output.new }) (two_numbers label.now number other) result }
    ensures later { O.faults output.old ≤ O.faults output.new }
{
    let mut text = label_number(label, number);
    add(&mut text, b" ");
    add_number(&mut text, other);
    send_text(output, text, b"\n")
}

/// Adds numbers, a comma in front of each.
fn add_further(text: &mut ArrayVec<u8, 1024>, numbers: &[u64])
    requires { array_vec_len text.old + 21 * length numbers.now ≤ 1024 }
    ensures items { text.new.items ≡ text.old.items ++ flat_map (λ k. codes "," ++ decimal k) numbers.now }
    ensures len { array_vec_len text.new ≤ array_vec_len text.old + 21 * length numbers.now }
{
    for number in numbers {
        add(text, b",");
        add_number(text, *number);
    }
}

/// Adds numbers with commas between them.
fn add_joined(text: &mut ArrayVec<u8, 1024>, numbers: &[u64])
    requires { array_vec_len text.old + 21 * length numbers.now ≤ 1024 }
    ensures items { text.new.items ≡ text.old.items ++ joined numbers.now }
    ensures len { array_vec_len text.new ≤ array_vec_len text.old + 21 * length numbers.now }
{
    match numbers {
        [] => {}
        [first, rest @ ..] => {
            add_number(text, *first);
            add_further(text, rest);
        }
    }
}

/// The line in front of a tile of so many bytes.
#[tactic(auto, unfolding(crate::specs::Texts::tile_head))]
fn tile_head(number: u64, numbers: &[u64], count: u64) -> ArrayVec<u8, 1024>
    requires { length numbers.now ≤ 8 }
    ensures items { result.items ≡ tile_head number numbers.now count }
    ensures short { array_vec_len result ≤ 512 }
{
    let mut text = label_number(b"tile ", number);
    add(&mut text, b" ");
    add_joined(&mut text, numbers);
    add(&mut text, b" ");
    add_number(&mut text, count);
    add(&mut text, b"\n");
    text
}

/// Sends a tile with the number of its line and the numbers of its renders.
fn send_tile<O: ByteSink>(output: &mut O, number: u64, numbers: &[u64], bytes: &[u8]) -> bool
    requires { length numbers.now ≤ 8 }
    ensures sent { IsSent (record { writes = counts (O.faults output.old) (O.faults output.new); from = O.taken output.old; to = O.taken output.new }) (tile_text number numbers.now bytes.now) result }
    ensures later { O.faults output.old ≤ O.faults output.new }
{
    send_text(
        output,
        tile_head(number, numbers, bytes.len() as u64),
        bytes,
    )
}

/// Sends the answer to the line of a number; whether all of it went out, or a write failed.
pub(crate) fn send_answer<O: ByteSink>(
    output: &mut O,
    number: u64,
    reply: &CompositionReply,
) -> bool
    requires { HasFewParts reply.now }
    ensures sent { IsSent (record { writes = counts (O.faults output.old) (O.faults output.new); from = O.taken output.old; to = O.taken output.new }) (answer_text number reply.now) result }
    ensures later { O.faults output.old ≤ O.faults output.new }
{
    match reply {
        CompositionReply::Tile(tile) => {
            send_tile(
                output,
                number,
                tile.numbers.as_slice(),
                tile.bytes.as_slice(),
            )
        }
        CompositionReply::Fault => send_one(output, b"fault ", number),
        CompositionReply::Spent => send_one(output, b"spent ", number),
        CompositionReply::Cut(cut) => send_two(output, b"cut ", number, *cut),
        CompositionReply::Full => send_one(output, b"full ", number),
    }
}
