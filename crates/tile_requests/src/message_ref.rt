//! A message whose parts are borrowed, so that the messages of a schedule and of a session are read alike.
ghost use Rattle.std.specs.Prelude.{◌≡◌};

use http_wire::{Message, Method};

/// A message where it stands: its target and its body are borrowed. It doesn't know whether it is the last of its connection.
#[derive(Clone, Copy)]
pub struct MessageRef<'a> {
    pub method: Method,
    pub target: &'a [u8],
    pub body: &'a [u8],
}

impl<'a> MessageRef<'a> {
    /// The parts of a message of a connection.
    pub fn of(message: &'a Message) -> MessageRef<'a>
        ensures method { result.method ≡ message.now.method }
        ensures target { result.target.now ≡ message.now.target }
        ensures body { result.body.now ≡ message.now.body }
    {
        MessageRef {
            method: message.method,
            target: message.target.bytes(),
            body: message.body.bytes(),
        }
    }
}
