//! A connection to a renderer, of which each read and write is over by a deadline.
ghost use Rattle.std.specs.Prelude.{None, refl, IfOk, length, ◌≡◌, ◌≤◌};
ghost use Rattle.http_wire.specs.Side.{side};

use crate::deadline::Deadline;
use crate::fault::RendererFault;
use crate::hosts::HostAddresses;
use base::one_more;
use http_wire::{ByteSink, ByteSource, Failed, Link};
use std::io;
use std::io::{ErrorKind, Read, Write};
use std::net::{Net, OpenStream, TcpStream};
use std::time::{Clock, Duration};

/// A connection with a deadline. What goes over it isn't modelled.
#[derive(Drop)]
pub struct TimedLink<'a, R: Clock, S: Read + Write + OpenStream + Drop> {
    rt: &'a R,
    stream: S,
    deadline: Deadline,
    /// Why the last read or write failed.
    fault: Option<RendererFault>,
    read_faults: u64,
    write_faults: u64,
}

/// The fault that an error of a connection is.
fn fault_of(error: &io::Error) -> RendererFault {
    match error.kind() {
        ErrorKind::WouldBlock | ErrorKind::TimedOut => RendererFault::Late,
        kind => RendererFault::Stream(kind),
    }
}

/// The fault of a connection that wasn't made.
fn unconnected(error: &io::Error) -> RendererFault {
    match error.kind() {
        ErrorKind::WouldBlock | ErrorKind::TimedOut => RendererFault::Late,
        kind => RendererFault::Connect(kind),
    }
}

/// A connection to the first address of a host that takes one, within so many seconds for each, and by the deadline.
pub fn connect<'a, R: Net + Clock>(
    rt: &'a R,
    host: &HostAddresses,
    seconds: u32,
    deadline: Deadline,
) -> Result<TimedLink<'a, R, R::Stream>, RendererFault> {
    let mut fault = RendererFault::Connect(ErrorKind::AddrNotAvailable);
    for address in host.addresses() {
        let time = deadline
            .left(rt)?
            .min(Duration::from_secs(u64::from(seconds)));
        match TcpStream::connect_timeout(rt, address, time) {
            Ok(stream) => {
                return Ok(TimedLink {
                    rt,
                    stream,
                    deadline,
                    fault: None,
                    read_faults: 0,
                    write_faults: 0,
                });
            }
            Err(error) => fault = unconnected(&error),
        }
    }
    Err(fault)
}

impl<'a, R: Clock, S: Read + Write + OpenStream + Drop> TimedLink<'a, R, S> {
    /// Why the last read or write failed.
    pub fn fault(&self) -> RendererFault {
        self.fault.unwrap_or(RendererFault::Late)
    }
}

/// Reads what comes next, by the deadline.
fn read_next<R: Clock, S: Read + OpenStream>(
    rt: &R,
    stream: &mut S,
    deadline: Deadline,
    into: &mut [u8],
) -> Result<usize, RendererFault>
    ensures count { IfOk result (λ n. n ≤ length into.old) }
    ensures len { length into.new ≡ length into.old }
{
    'waiting: for _ in 0..u64::MAX {
        if let Err(error) = stream.set_read_timeout(Some(deadline.left(rt)?)) {
            return Err(fault_of(&error));
        }
        match stream.read(into) {
            Ok(count) => return Ok(count),
            Err(error) if error.kind() == ErrorKind::Interrupted => {}
            Err(error) => return Err(fault_of(&error)),
        }
    }
    Err(RendererFault::Late)
}

/// Writes what goes out of the bytes at once, by the deadline: one at least.
fn write_next<R: Clock, S: Write + OpenStream>(
    rt: &R,
    stream: &mut S,
    deadline: Deadline,
    bytes: &[u8],
) -> Result<usize, RendererFault>
    ensures { IfOk result (λ n. (1 ≤ n) × (n ≤ length bytes.now)) }
{
    'waiting: for _ in 0..u64::MAX {
        if let Err(error) = stream.set_write_timeout(Some(deadline.left(rt)?)) {
            return Err(fault_of(&error));
        }
        match stream.write(bytes) {
            Ok(0) => return Err(RendererFault::Stream(ErrorKind::WriteZero)),
            Ok(count) => return Ok(count),
            Err(error) if error.kind() == ErrorKind::Interrupted => {}
            Err(error) => return Err(fault_of(&error)),
        }
    }
    Err(RendererFault::Late)
}

impl<'a, R: Clock, S: Read + Write + OpenStream + Drop> ByteSource for TimedLink<'a, R, S> {
    ghost left = { λ _. None };

    ghost faults = { λ link. link.read_faults };

    ghost apart = { λ link. side None link.write_faults };

    fn take(&mut self, into: &mut [u8]) -> Result<usize, Failed> {
        match read_next(self.rt, &mut self.stream, self.deadline, into) {
            Ok(count) => Ok(count),
            Err(fault) => {
                self.fault = Some(fault);
                self.read_faults = one_more(self.read_faults);
                Err(Failed)
            }
        }
    }
}

impl<'a, R: Clock, S: Read + Write + OpenStream + Drop> ByteSink for TimedLink<'a, R, S> {
    ghost taken = { λ _. None };

    ghost faults = { λ link. link.write_faults };

    ghost apart = { λ link. side None link.read_faults };

    fn put(&mut self, bytes: &[u8]) -> Result<usize, Failed> {
        match write_next(self.rt, &mut self.stream, self.deadline, bytes) {
            Ok(count) => Ok(count),
            Err(fault) => {
                self.fault = Some(fault);
                self.write_faults = one_more(self.write_faults);
                Err(Failed)
            }
        }
    }
}

impl<'a, R: Clock, S: Read + Write + OpenStream + Drop> Link for TimedLink<'a, R, S> {
    ghost take_keeps = { λ link. refl };

    ghost put_keeps = { λ link. refl };
}
