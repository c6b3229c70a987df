//! Bytes sent whole, or how many of them went out before a write failed.
ghost use Rattle.std.specs.Io.KnownBytes.{Appends};
ghost use Rattle.std.specs.Prelude.{◌≡◌, ◌<◌, ◌++◌, take, length, IfErr, OnOk};
ghost use Rattle.base.specs.Causes.{HasCause};

use crate::streams::ByteSink;

/// How many bytes went out before the write that failed.
#[derive(Clone, Copy, PartialEq, Eq)]
pub struct Sent(pub u64);

/// Sends all of the bytes. `Sent(n)` where a write failed, and then exactly the first `n` went out.
pub fn send<O: ByteSink>(sink: &mut O, bytes: &[u8]) -> Result<(), Sent>
    ensures ok { OnOk result (Appends (O.taken sink.old) (O.taken sink.new) bytes.now) }
    ensures err { IfErr result (λ sent. (sent.0 < length bytes.now) × Appends (O.taken sink.old) (O.taken sink.new) (take sent.0 bytes.now)) }
    ensures cause { HasCause (O.faults sink.old) (O.faults sink.new) result }
    ensures apart { O.apart sink.new ≡ O.apart sink.old }
{
    let mut at = 0;
    'sending: while at < bytes.len() {
        let (_, rest) = bytes.split_at(at);
        match sink.put(rest) {
            Ok(count) => at += count,
            Err(_) => return Err(Sent(at as u64)),
        }
    }
    Ok(())
}

/// Sends two parts, one behind the other, and copies neither. `Sent(n)` where a write failed, and then exactly the first `n`
/// bytes of both went out.
pub fn send_both<O: ByteSink>(sink: &mut O, first: &[u8], second: &[u8]) -> Result<(), Sent>
    ensures ok { OnOk result (Appends (O.taken sink.old) (O.taken sink.new) (first.now ++ second.now)) }
    ensures err { IfErr result (λ sent. (sent.0 < length (first.now ++ second.now)) × Appends (O.taken sink.old) (O.taken sink.new) (take sent.0 (first.now ++ second.now))) }
    ensures cause { HasCause (O.faults sink.old) (O.faults sink.new) result }
    ensures apart { O.apart sink.new ≡ O.apart sink.old }
{
    match send(sink, first) {
        Ok(()) => {}
        Err(sent) => return Err(sent),
    }
    match send(sink, second) {
        Ok(()) => Ok(()),
        Err(Sent(count)) => Err(Sent(first.len() as u64 + count)),
    }
}
