//! The trait of a listening socket.
ghost use Rattle.std.specs.Prelude.{◌≡◌, ℕ, Bool, true, List, [], ◌∷◌, ◌++◌, IfOk, IfErr};
ghost use Rattle.base.specs.Causes.{HasCause};

use crate::links::Link;
use crate::streams::Failed;

/// Where links come from, as a listening socket is.
pub trait Listener: Drop {
    /// What it gives.
    type L: Link;

    /// The links that it has given, each as it was then, the first one first.
    ghost given: { Self → List Self.L };

    /// How often an accept has failed.
    ghost faults: { Self → ℕ };

    /// Whether it was told that no further link is wanted.
    ghost closed: { Self → Bool };

    /// Waits for a further link and gives it. `Failed` where none can be had.
    fn accept(&mut self) -> Result<Self::L, Failed>
        ensures given { IfOk result (λ link. given self.new ≡ given self.old ++ link ∷ []) }
        ensures refused { IfErr result (λ _. given self.new ≡ given self.old) }
        ensures cause { HasCause (faults self.old) (faults self.new) result };

    /// Tells it that no further link is wanted. Those that were given are served on; nobody is to connect and wait for one once they have
    /// ended.
    fn close(&mut self)
        ensures closed { closed self.new ≡ true }
        ensures given { given self.new ≡ given self.old }
        ensures faults { faults self.new ≡ faults self.old };
}

impl<N: Listener> Listener for &mut N {
    type L = N::L;

    ghost given = { λ s. N.given s.now };

    ghost faults = { λ s. N.faults s.now };

    ghost closed = { λ s. N.closed s.now };

    fn accept(&mut self) -> Result<N::L, Failed> {
        (**self).accept()
    }

    fn close(&mut self) {
        (**self).close();
    }
}
