//! The gates of those that work at a job.
ghost use Rattle.std.specs.Prelude.{IfOk, length, ◌≡◌};

use base::Traffic;
use seed_jobs::{MEMBERS, Pace, PacedGate};
use std::alloc::{AllocError, Global};
use std::time::Clock;

/// A gate for each member of a job's crew, where it rests while requests come. `AllocError` where memory runs out.
pub(crate) fn paced_gates<'a, R: Clock>(
    rt: &'a R,
    alloc: Global,
    traffic: &'a Traffic,
    pace: &'a Pace,
) -> Result<Vec<PacedGate<'a, R>>, AllocError>
    ensures { IfOk result (λ gates. length gates.items ≡ MEMBERS) }
{
    let mut gates = Vec::new(alloc);
    'opening: for _ in 0..MEMBERS {
        gates.push(PacedGate::new(rt, traffic, pace))?;
    }
    Ok(gates)
}
