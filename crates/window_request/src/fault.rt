//! Why a template is refused.
ghost use Rattle.std.specs.Prelude.{◌≡◌};
ghost use Rattle.window_request.specs.declared.fault.TemplateFault.TheVariants.{OutOfMemory};

use std::alloc::{AllocError, AllocFailed};

/// Why a template is refused, with the place in bytes from its front.
#[derive(Clone, Copy, Debug, PartialEq, Eq)]
pub enum TemplateFault {
    /// It doesn't begin with `http://`.
    Scheme,
    /// What follows isn't `HOST` or `HOST:PORT`: letters, digits, `.`, `-` and `_`, and a number from 1 to 65535.
    Authority,
    /// No path follows.
    NoPath,
    /// A space, a control character, `#`, `}` or a byte beyond ASCII stands there.
    Byte(usize),
    /// A brace opens there that isn't closed.
    OpenBrace(usize),
    /// A name in braces begins there that stands for nothing.
    UnknownName(usize),
    /// Memory ran out.
    OutOfMemory,
}

impl From<AllocError> for TemplateFault {
    ghost from_gives = { λ _ fault. fault ≡ OutOfMemory };

    fn from(_: AllocError) -> TemplateFault {
        TemplateFault::OutOfMemory
    }
}

impl<T: Drop> From<AllocFailed<T>> for TemplateFault {
    ghost from_gives = { λ _ fault. fault ≡ OutOfMemory };

    fn from(_: AllocFailed<T>) -> TemplateFault {
        TemplateFault::OutOfMemory
    }
}
