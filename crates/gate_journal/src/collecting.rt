//! The visitor that collects the bodies of all records.
ghost use Rattle.std.specs.Prelude.{◌≡◌, [], ◌∷◌, ◌++◌};

use crate::visit::Visit;
use std::alloc::{AllocError, Global};

/// Each visit adds the body behind the others.
impl Visit for Vec<[u8; 63]> {
    ghost visits = { λ slot body old new. new.items ≡ old.items ++ body ∷ [] };

    ghost leaves = { λ old new. new.items ≡ old.items };

    fn body(&mut self, _: Global, _: u64, body: &[u8; 63]) -> Result<(), AllocError> {
        self.push(*body)?;
        Ok(())
    }
}
