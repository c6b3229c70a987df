//! The reader of the messages of a stream.
ghost use Rattle.std.specs.Prelude.{◌≡◌, [], None, IfOk, IfSome};
ghost use Rattle.http_wire.specs.Answers.{Answers, IsMessage, IsPartOfTake, Leaves, again_of, ended_of};
ghost use Rattle.http_wire.specs.Messages.{HoldsMessage};
ghost use Rattle.http_wire.specs.ReadCause.{HasReadCause};
ghost use Rattle.http_wire.specs.Reader.{stream};

use crate::filling::TAKE_SIZE;
use crate::links::Link;
use crate::message::{Ended, Next, WireFault};
use crate::next_message::{again, ended_by, next_of};
use std::alloc::{AllocError, Global};
use std::marker::Model;

/// Reads the messages of a stream, one after another. Contracts see the bytes that it took and has not answered yet, and
/// how it has ended, once it has.
#[derive(Drop)]
pub struct MessageReader {
    held: Vec<u8>,
    ended: Option<Ended>,
}

impl Model for MessageReader {
    ghost use Rattle.http_wire.specs.Reader.{Reading};

    ghost Value = { Reading };

    ghost view = { λ r. record { held = r.held.items; ended = r.ended } };
}

impl MessageReader {
    /// A reader that has taken nothing. `AllocError` where memory runs out.
    pub fn new(alloc: Global) -> Result<MessageReader, AllocError>
        ensures { IfOk result (λ reader. reader ≡ record { held = []; ended = None }) }
    {
        Ok(MessageReader {
            held: Vec::with_capacity(alloc, TAKE_SIZE)?,
            ended: None,
        })
    }

    /// The next message of the stream, or how it stops, however the link cuts its bytes into pieces. After End, Truncated,
    /// Bad or a fault it answers the same again, and neither reads nor changes. `ReadFault` only where a read failed,
    /// `OutOfMemory` where memory runs out.
    pub fn next<L: Link>(&mut self, alloc: Global, link: &mut L) -> Result<Next, WireFault>
        // The answer is what stands next in the bytes that are held and those that are left.
        ensures answers { self.old.ended ≡ None → Answers (stream self.old (L.left link.old)) (stream self.new (L.left link.new)) result }
        // An answer that is no message takes no byte out of the stream, which at a stop stops so. Want of memory alone may lose some.
        ensures leaves { self.old.ended ≡ None → Leaves (stream self.old (L.left link.old)) self.new.held (L.left link.new) result }
        // How it has ended is kept, and answered again.
        ensures ends { self.old.ended ≡ None → self.new.ended ≡ ended_of result }
        ensures again { IfSome self.old.ended (λ ended. (result ≡ again_of ended) × (self.new ≡ self.old) × (link.new ≡ link.old)) }
        // Of the bytes after a message it holds fewer than one take may bring: once the message is whole it takes none.
        ensures surplus { self.old.ended ≡ None → IsMessage result → IsPartOfTake self.old.held → IsPartOfTake self.new.held }
        // A whole message waits for no further byte: held before, it leaves the link untouched, and no fault comes before it.
        ensures untouched { self.old.ended ≡ None → HoldsMessage self.old.held → link.new ≡ link.old }
        ensures waits { self.old.ended ≡ None → result ≡ Err WireFault.ReadFault → ¬ (HoldsMessage self.new.held) }
        ensures cause { self.old.ended ≡ None → HasReadCause (L.ByteSource.faults link.old) (L.ByteSource.faults link.new) result }
        // Nothing is sent.
        ensures taken { L.taken link.new ≡ L.taken link.old }
        ensures put_faults { L.ByteSink.faults link.new ≡ L.ByteSink.faults link.old }
    {
        if let Some(ended) = self.ended {
            return again(ended);
        }
        let answer = next_of(alloc, &mut self.held, link);
        self.ended = ended_by(&answer);
        answer
    }
}
