//! A link made of an input and an output that are lent apart. Its type names both loans, so that who lent them knows
//! afterwards that these two, and no others, were read and written.
ghost use Rattle.std.specs.Io.KnownBytes.{ReadConsumes, WriteAppends};
ghost use Rattle.std.specs.Prelude.{◌≡◌, ◌≤◌, ◌<◌, length, IfOk, refl};
ghost use Rattle.base.specs.Causes.{HasCause};
ghost use Rattle.http_wire.specs.Side.{side};

use crate::links::Link;
use crate::streams::{ByteSink, ByteSource, Failed};
use std::marker::{Brand, PhantomData};

/// An input and an output, both lent, that know nothing of each other.
#[derive(Drop)]
pub struct Ends<'a, 'b, I, O> {
    pub input: &'a mut I,
    pub output: &'b mut O,
}

impl<I: ByteSource, O: ByteSink> Ends<'_, '_, I, O> {
    /// Takes the next bytes of the input, as `ByteSource::take` says. The output stays.
    fn take(&mut self, into: &mut [u8]) -> Result<usize, Failed>
        requires { 0 < length into.old }
        ensures bound { IfOk result (λ n. n ≤ length into.new) }
        ensures bytes { ReadConsumes (I.left self.old.input.now) (I.left self.new.input.now) result into.new }
        ensures cause { HasCause (I.faults self.old.input.now) (I.faults self.new.input.now) result }
        ensures same_input { self.new.input.ghost_name ≡ self.old.input.ghost_name }
        ensures same_output { self.new.output ≡ self.old.output }
    {
        self.input.take(into)
    }

    /// Puts bytes to the output, as `ByteSink::put` says. The input stays.
    fn put(&mut self, bytes: &[u8]) -> Result<usize, Failed>
        requires { 0 < length bytes.now }
        ensures bound { IfOk result (λ n. (1 ≤ n) × (n ≤ length bytes.now)) }
        ensures bytes { WriteAppends (O.taken self.old.output.now) (O.taken self.new.output.now) result bytes.now }
        ensures cause { HasCause (O.faults self.old.output.now) (O.faults self.new.output.now) result }
        ensures same_input { self.new.input ≡ self.old.input }
        ensures same_output { self.new.output.ghost_name ≡ self.old.output.ghost_name }
    {
        self.output.put(bytes)
    }
}

/// The loans of one input and of one output, by name. A call that is generic over them picks them in its proof.
pub trait Loans {
    ghost use Rattle.std.specs.Borrow.{GName};

    /// The loan of the input.
    ghost input: { GName };

    /// The loan of the output.
    ghost output: { GName };
}

impl Loans for Brand {
    ghost input = { 0 };

    ghost output = { 0 };
}

/// A link: what is taken comes from the input, what is put goes to the output. It has the two of `L` and never others, so that
/// who lent them and hands on the link knows afterwards that it was they who were read and written.
#[derive(Drop)]
pub struct Duplex<'a, 'b, I, O, L: Loans> {
    pub ends: Ends<'a, 'b, I, O>,
    loans: PhantomData<L>,
    ghost same_input: { ends.input.ghost_name ≡ L.input },
    ghost same_output: { ends.output.ghost_name ≡ L.output },
}

impl<'a, 'b, I, O, L: Loans> Duplex<'a, 'b, I, O, L> {
    /// The link of these two.
    pub fn new(ends: Ends<'a, 'b, I, O>) -> Duplex<'a, 'b, I, O, L>
        requires input { ends.input.ghost_name ≡ L.input }
        requires output { ends.output.ghost_name ≡ L.output }
        ensures { result.ends ≡ ends.entry }
    {
        Duplex {
            ends,
            loans: PhantomData,
        }
    }

    /// The two that the link was made of.
    pub fn into_ends(self) -> Ends<'a, 'b, I, O>
        ensures { result ≡ self.entry.ends }
    {
        let Duplex { ends, .. } = self;
        ends
    }
}

impl<I: ByteSource, O: ByteSink, L: Loans> ByteSource for Duplex<'_, '_, I, O, L> {
    ghost left = { λ link. I.left link.ends.input.now };

    ghost faults = { λ link. I.faults link.ends.input.now };

    ghost apart = { λ link. side (O.taken link.ends.output.now) (O.faults link.ends.output.now) };

    fn take(&mut self, into: &mut [u8]) -> Result<usize, Failed> {
        self.ends.take(into)
    }
}

impl<I: ByteSource, O: ByteSink, L: Loans> ByteSink for Duplex<'_, '_, I, O, L> {
    ghost taken = { λ link. O.taken link.ends.output.now };

    ghost faults = { λ link. O.faults link.ends.output.now };

    ghost apart = { λ link. side (I.left link.ends.input.now) (I.faults link.ends.input.now) };

    fn put(&mut self, bytes: &[u8]) -> Result<usize, Failed> {
        self.ends.put(bytes)
    }
}

impl<I: ByteSource, O: ByteSink, L: Loans> Link for Duplex<'_, '_, I, O, L> {
    ghost take_keeps = { λ link. refl };

    ghost put_keeps = { λ link. refl };
}
