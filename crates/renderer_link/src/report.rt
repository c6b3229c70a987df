//! What is told of a failed render on standard error.
use crate::fault::RendererFault;
use std::fmt;
use std::io::Eprint;
use std::str::from_utf8;
use std::sync::{Mutex, Wait};
use std::time::{Clock, Duration};

/// How many bytes of a body that is no pixmap are told.
const SHOWN: usize = 200;

/// A failed render in one line: the fault, what was asked for, and the front of a body that is no pixmap.
#[derive(Clone, Copy)]
pub struct FailedRender<'a> {
    pub fault: RendererFault,
    pub authority: &'a [u8],
    pub request: &'a [u8],
    pub body: &'a [u8],
}

/// The target of a request: what stands between the first blank and the next one.
fn target_of(request: &[u8]) -> &[u8] {
    let mut parts = request.split(|byte| *byte == b' ');
    let _ = parts.next();
    parts.next().unwrap_or(&[])
}

/// Writes a text of ASCII.
fn write_ascii<W: fmt::Write>(f: &mut fmt::Formatter<W>, text: &[u8]) -> fmt::Result {
    match from_utf8(text) {
        Ok(text) => f.write_str(text),
        Err(_) => Ok(()),
    }
}

/// Writes the visible bytes and the blanks of a text, and a blank for any other byte.
fn write_visible<W: fmt::Write>(f: &mut fmt::Formatter<W>, text: &[u8]) -> fmt::Result {
    for byte in text {
        let visible = *byte >= b' ' && *byte < 0x7f;
        f.write_char(if visible { char::from(*byte) } else { ' ' })?;
    }
    Ok(())
}

impl fmt::Display for FailedRender<'_> {
    fn fmt<W: fmt::Write>(&self, f: &mut fmt::Formatter<W>) -> fmt::Result {
        write!(f, "render failed: {}: http://", self.fault)?;
        write_ascii(f, self.authority)?;
        write_ascii(f, target_of(self.request))?;
        if self.body.is_empty() {
            return Ok(());
        }
        f.write_str(": ")?;
        let (front, _) = self.body.split_at(self.body.len().min(SHOWN));
        write_visible(f, front)
    }
}

/// When a failed render was told last.
#[derive(Drop)]
pub struct Reports {
    last: Mutex<Option<Duration>>,
}

impl Reports {
    /// Nothing was told yet.
    pub fn new() -> Reports {
        Reports {
            last: Mutex::new(None),
        }
    }

    /// Whether a failed render may be told now: the last one that was told is a second ago. Where the clock can't be read it may.
    fn is_due<R: Wait + Clock>(&self, rt: &R) -> bool {
        let Ok(now) = rt.monotonic() else {
            return true;
        };
        let mut last = self.last.lock(rt);
        let due = match *last {
            Some(then) => match now.checked_sub(then) {
                Some(time) => time >= Duration::from_secs(1),
                None => true,
            },
            None => true,
        };
        if due {
            *last = Some(now);
        }
        due
    }

    /// Tells a failed render, unless one was told within the last second. A standard error that takes nothing changes nothing.
    pub fn tell<R: Wait + Clock + Eprint>(&self, rt: &R, failed: &FailedRender) {
        if self.is_due(rt) {
            let _ = eprintln!(rt; "{failed}");
        }
    }
}
