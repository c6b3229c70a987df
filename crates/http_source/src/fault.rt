//! Why a text names no renderer, and the member at fault.
ghost use Rattle.std.specs.Prelude.{◌≡◌};
ghost use Rattle.http_source.specs.declared.fault.RendererFault.TheVariants.{OutOfMemory};

use std::alloc::{AllocError, AllocFailed};
use window_request::TemplateFault;

/// A member of the text.
#[derive(Clone, Copy, Debug, PartialEq, Eq)]
pub enum RendererField {
    /// `url`
    Url,
    /// `layers`
    Layers,
    /// `layer` of an entry of `layers`
    Layer,
    /// `url` of an entry of `layers`
    LayerUrl,
    /// `connectSeconds`
    ConnectSeconds,
    /// `answerSeconds`
    AnswerSeconds,
    /// `renders`
    Renders,
}

/// Why a text names no renderer: a member, with the place of its entry in the list of layers, 0 for the outermost object.
#[derive(Clone, Copy, Debug, PartialEq, Eq)]
pub enum RendererFault {
    /// The text isn't one JSON object.
    NotJson,
    /// The member has to be there.
    Missing(RendererField, u32),
    /// The member has another form, or names a layer that isn't there.
    Bad(RendererField, u32),
    /// An entry before this one names the same layer.
    Duplicate(RendererField, u32),
    /// The number is beyond its limits, or there are more than 64 entries.
    Limit(RendererField, u32),
    /// The text of the member is no template, for this cause, which is not want of memory.
    Template(RendererField, u32, TemplateFault),
    /// Memory ran out.
    OutOfMemory,
}

impl From<AllocError> for RendererFault {
    ghost from_gives = { λ _ e. e ≡ OutOfMemory };

    fn from(_e: AllocError) -> RendererFault {
        RendererFault::OutOfMemory
    }
}

impl<T: Drop> From<AllocFailed<T>> for RendererFault {
    ghost from_gives = { λ _ e. e ≡ OutOfMemory };

    fn from(_e: AllocFailed<T>) -> RendererFault {
        RendererFault::OutOfMemory
    }
}
