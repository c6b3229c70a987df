//! Why the program has no source, and how that is told.
use http_source::{RendererFault, RendererField};
use http_wire::InputEnd;
use renderer_link::HostFault;
use std::alloc::{AllocError, AllocFailed};
use std::fmt;
use window_request::TemplateFault;

/// Why the program has no source.
#[derive(Clone, Copy, PartialEq, Eq)]
pub enum SourceFault {
    /// The file of cells is there beside the one that names a renderer.
    TwoSources,
    /// The file that names a renderer has this fault, which isn't want of memory.
    Renderer(RendererFault),
    /// The host of this member isn't found; with the place of its entry in the list of layers.
    UnknownHost(RendererField, u32),
    /// A read of the file failed.
    ReadFault,
    /// The file has more bytes than it may have.
    TooLong,
    /// Memory ran out.
    OutOfMemory,
}

impl From<AllocError> for SourceFault {
    fn from(_e: AllocError) -> SourceFault {
        SourceFault::OutOfMemory
    }
}

impl<T: Drop> From<AllocFailed<T>> for SourceFault {
    fn from(_e: AllocFailed<T>) -> SourceFault {
        SourceFault::OutOfMemory
    }
}

impl From<InputEnd> for SourceFault {
    fn from(end: InputEnd) -> SourceFault {
        match end {
            InputEnd::ReadFault => SourceFault::ReadFault,
            InputEnd::TooLong => SourceFault::TooLong,
            InputEnd::OutOfMemory => SourceFault::OutOfMemory,
        }
    }
}

impl From<RendererFault> for SourceFault {
    fn from(fault: RendererFault) -> SourceFault {
        match fault {
            RendererFault::OutOfMemory => SourceFault::OutOfMemory,
            other => SourceFault::Renderer(other),
        }
    }
}

impl From<HostFault> for SourceFault {
    fn from(fault: HostFault) -> SourceFault {
        match fault {
            HostFault::Unknown(field, at) => SourceFault::UnknownHost(field, at),
            HostFault::OutOfMemory => SourceFault::OutOfMemory,
        }
    }
}

/// The line that tells a fault.
impl fmt::Display for SourceFault {
    fn fmt<W: fmt::Write>(&self, f: &mut fmt::Formatter<W>) -> fmt::Result {
        match self {
            SourceFault::TwoSources => f.write_str("two sources"),
            SourceFault::Renderer(fault) => write_fault(f, *fault),
            SourceFault::UnknownHost(field, at) => write_placed(f, "unknown", *field, *at),
            SourceFault::ReadFault => f.write_str("read fault"),
            SourceFault::TooLong => f.write_str("too long"),
            SourceFault::OutOfMemory => f.write_str("out of memory"),
        }
    }
}

/// Writes a fault of the file: its kind, its member and the place of the member's entry, and behind them what is wrong with a template.
fn write_fault<W: fmt::Write>(f: &mut fmt::Formatter<W>, fault: RendererFault) -> fmt::Result {
    match fault {
        RendererFault::NotJson => f.write_str("renderer not json  0"),
        RendererFault::Missing(field, at) => write_placed(f, "missing", field, at),
        RendererFault::Bad(field, at) => write_placed(f, "bad", field, at),
        RendererFault::Duplicate(field, at) => write_placed(f, "duplicate", field, at),
        RendererFault::Limit(field, at) => write_placed(f, "limit", field, at),
        RendererFault::Template(field, at, how) => {
            write_placed(f, "bad", field, at)?;
            write_template(f, how)
        }
        RendererFault::OutOfMemory => f.write_str("out of memory"),
    }
}

/// Writes the kind of a fault of the file, and what is at fault.
fn write_placed<W: fmt::Write>(
    f: &mut fmt::Formatter<W>,
    kind: &str,
    field: RendererField,
    at: u32,
) -> fmt::Result {
    write!(f, "renderer {kind} {field:?} {at}")
}

/// Writes what is wrong with a template, and at which of its bytes, counted from 0.
fn write_template<W: fmt::Write>(f: &mut fmt::Formatter<W>, how: TemplateFault) -> fmt::Result {
    match how {
        TemplateFault::Scheme => f.write_str(" scheme"),
        TemplateFault::Authority => f.write_str(" host"),
        TemplateFault::NoPath => f.write_str(" path"),
        TemplateFault::Byte(at) => write!(f, " byte {at}"),
        TemplateFault::OpenBrace(at) => write!(f, " brace {at}"),
        TemplateFault::UnknownName(at) => write!(f, " name {at}"),
        TemplateFault::OutOfMemory => Ok(()),
    }
}
