//! The text of families.
ghost use Rattle.std.specs.List.{flat_map};
ghost use Rattle.std.specs.Prelude.{◌≡◌, ◌++◌, IfOk, OnOk};
ghost use Rattle.metrics_text.specs.Exposition.{ended, lines_of, metrics_of};

use crate::family::Family;
use crate::lines::push_lines;
use std::alloc::{AllocError, Global};

fn push_families(text: &mut Vec<u8>, families: &[Family]) -> Result<(), AllocError>
    ensures { OnOk result (text.new.items ≡ text.old.items ++ flat_map (λ f. flat_map ended (lines_of f)) families.now) }
{
    for family in families {
        push_lines(text, family)?;
    }
    Ok(())
}

/// The text of families in their order, as Prometheus reads it (`text/plain; version=0.0.4`). A name belongs to one family alone, or its
/// samples aren't in one group. `AllocError` where memory runs out.
pub fn write_metrics(alloc: Global, families: &[Family]) -> Result<Vec<u8>, AllocError>
    ensures metrics { IfOk result (λ text. text.items ≡ metrics_of families.now) }
{
    let mut text = Vec::new(alloc);
    push_families(&mut text, families)?;
    Ok(text)
}
