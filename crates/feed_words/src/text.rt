//! The texts of answers, sent.
ghost use Rattle.std.specs.Prelude.{◌≡◌, ◌≤◌, ◌++◌, decimal, length};
ghost use Rattle.arrayvec.specs.ArrayVec.{array_vec_len};
ghost use Rattle.feed_words.specs.OneLine.{IsSent};
ghost use Rattle.feed_words.specs.Texts.{answer_text, no_number, one_number, two_numbers};
ghost use Rattle.sessions.specs.Outside.{OutputChange, counts};

use arrayvec::ArrayVec;
use change_feed::Applied;
use http_wire::ByteSink;
use tile_requests::{add, add_number, send_behind};

/// A label and a number after it.
fn label_number(label: &[u8], number: u64) -> ArrayVec<u8, 1024>
    requires { length label.now ≤ 100 }
    ensures items { result.items ≡ label.now ++ decimal number }
    ensures short { array_vec_len result ≤ 120 }
{
    let mut text = ArrayVec::new();
    add(&mut text, label);
    add_number(&mut text, number);
    text
}

/// Sends a text in two parts; whether all of it went out, or a write failed.
fn send_text<O: ByteSink>(output: &mut O, front: ArrayVec<u8, 1024>, rest: &[u8]) -> bool
    requires { array_vec_len front ≤ 512 }
    ensures sent { IsSent (record { writes = counts (O.faults output.old) (O.faults output.new); from = O.taken output.old; to = O.taken output.new }) (front.items ++ rest.now) result }
    ensures later { O.faults output.old ≤ O.faults output.new }
{
    match send_behind(output, front, rest) {
        Ok(()) => true,
        Err(_) => false,
    }
}

/// Sends a label with the number of a change.
#[tactic(auto, unfolding(crate::specs::Texts::one_number))]
fn send_one<O: ByteSink>(output: &mut O, label: &[u8], number: u64) -> bool
    requires { length label.now ≤ 100 }
    ensures sent { IsSent (record { writes = counts (O.faults output.old) (O.faults output.new); from = O.taken output.old; to = O.taken output.new }) (one_number label.now number) result }
    ensures later { O.faults output.old ≤ O.faults output.new }
{
    send_text(output, label_number(label, number), b"\n")
}

/// Sends a label with the number of a change, and a dash.
#[tactic(auto, unfolding(crate::specs::Texts::no_number))]
fn send_none<O: ByteSink>(output: &mut O, label: &[u8], number: u64) -> bool
    requires { length label.now ≤ 100 }
    ensures sent { IsSent (record { writes = counts (O.faults output.old) (O.faults output.new); from = O.taken output.old; to = O.taken output.new }) (no_number label.now number) result }
    ensures later { O.faults output.old ≤ O.faults output.new }
{
    send_text(output, label_number(label, number), b" -\n")
}

/// Sends a label with the number of a change and another number.
#[tactic(auto, unfolding(crate::specs::Texts::two_numbers))]
fn send_two<O: ByteSink>(output: &mut O, label: &[u8], number: u64, other: u64) -> bool
    requires { length label.now ≤ 100 }
    ensures sent { IsSent (record { writes = counts (O.faults output.old) (O.faults output.new); from = O.taken output.old; to = O.taken output.new }) (two_numbers label.now number other) result }
    ensures later { O.faults output.old ≤ O.faults output.new }
{
    let mut text = label_number(label, number);
    add(&mut text, b" ");
    add_number(&mut text, other);
    send_text(output, text, b"\n")
}

/// Sends what became of the change of a number; whether all of it went out, or a write failed.
pub(crate) fn send_answer<O: ByteSink>(output: &mut O, number: u64, reply: Applied) -> bool
    ensures sent { IsSent (record { writes = counts (O.faults output.old) (O.faults output.new); from = O.taken output.old; to = O.taken output.new }) (answer_text number reply) result }
    ensures later { O.faults output.old ≤ O.faults output.new }
{
    match reply {
        Applied::Repeated => send_one(output, b"repeated ", number),
        Applied::Gap(last) => send_two(output, b"gap ", number, last),
        Applied::FeedFault(None) => send_none(output, b"feed fault ", number),
        Applied::FeedFault(Some(cut)) => send_two(output, b"feed fault ", number, cut),
        Applied::Spent => send_one(output, b"spent ", number),
        Applied::Full => send_one(output, b"full ", number),
        Applied::DiskFault(_, _) => send_one(output, b"disk fault ", number),
        Applied::Done(cut) => send_two(output, b"done ", number, cut),
    }
}
