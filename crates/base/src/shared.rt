//! A text that several hold.
ghost use Rattle.std.specs.Prelude.{◌≡◌, ◌≤◌, ◌<◌, ◌^◌, IfOk, length, slice_range};

use std::alloc::{AllocError, Global};
use std::marker::Model;
use std::sync::Arc;

/// The bytes of a text, or of a part of it, in memory that all its holders share. They never change, and are freed with their last
/// holder. Contracts see the bytes.
#[derive(Drop)]
pub struct SharedText {
    text: Arc<Vec<u8>>,
    /// The place of the first byte in the text.
    start: usize,
    /// The place behind the last one.
    end: usize,
}

impl Model for SharedText {
    ghost use Rattle.std.specs.Prelude.{List, length, slice_range, ℕ, ◌≤◌};

    ghost Value = { List ℕ };

    ghost view = { λ t. slice_range t.text.value.items t.start t.end };

    ghost invariant = { λ t. (t.start ≤ t.end) × (t.end ≤ length t.text.value.items) };
}

impl SharedText {
    /// A text of these bytes, which are taken over and not copied. `AllocError` where memory runs out.
    pub fn of(alloc: Global, bytes: Vec<u8>) -> Result<SharedText, AllocError>
        ensures { IfOk result (λ text. text ≡ bytes.items) }
    {
        let end = bytes.len();
        match Arc::new(alloc, bytes) {
            Err(_) => Err(AllocError),
            Ok(text) => Ok(SharedText {
                text,
                start: 0,
                end,
            }),
        }
    }

    /// The bytes.
    pub fn bytes(&self) -> &[u8]
        ensures value { result.now ≡ self.now }
        ensures small { length self.now < 2 ^ 63 }
    {
        &self.text[self.start..self.end]
    }

    /// One more holder of the text. `AllocError` where it has as many as can be counted.
    pub fn share(&self) -> Result<SharedText, AllocError>
        ensures { IfOk result (λ text. text ≡ self.now) }
    {
        match Arc::try_clone(&self.text) {
            Err(fault) => Err(fault),
            Ok(text) => Ok(SharedText {
                text,
                start: self.start,
                end: self.end,
            }),
        }
    }

    /// The part from one place to another, as one more holder of the text. `AllocError` where it has as many as can be counted.
    pub fn part(&self, from: usize, to: usize) -> Result<SharedText, AllocError>
        requires order { from ≤ to }
        requires inside { to ≤ length self.now }
        ensures { IfOk result (λ text. text ≡ slice_range self.now from to) }
    {
        match Arc::try_clone(&self.text) {
            Err(fault) => Err(fault),
            Ok(text) => Ok(SharedText {
                text,
                start: self.start + from,
                end: self.start + to,
            }),
        }
    }
}
