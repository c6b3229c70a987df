//! What a fault says is at fault.
ghost use Rattle.std.specs.Prelude.{◌≡◌};
ghost use Rattle.fault_paths.specs.Paths.{sought_of};

use crate::fitting::Mistake;
use catalog::{CatalogueFault, Field};

/// What is wrong with which member, and where its object stands in its list.
#[derive(Clone, Copy)]
pub struct Sought {
    /// What is wrong.
    pub mistake: Mistake,
    /// The member.
    pub field: Field,
    /// The place of the object that has it, 0 for the outermost one.
    pub at: u32,
}

/// What a fault says; `None` where it names no member.
pub(crate) fn sought_of(fault: CatalogueFault) -> Option<Sought>
    ensures { result ≡ sought_of fault }
{
    match fault {
        CatalogueFault::NotJson | CatalogueFault::OutOfMemory => None,
        CatalogueFault::Missing(field, at) => Some(Sought {
            mistake: Mistake::Absence,
            field,
            at,
        }),
        CatalogueFault::Bad(field, at) | CatalogueFault::Duplicate(field, at) => Some(Sought {
            mistake: Mistake::Other,
            field,
            at,
        }),
        CatalogueFault::Limit(field, at) => Some(Sought {
            mistake: Mistake::Excess,
            field,
            at,
        }),
    }
}
