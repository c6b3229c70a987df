//! A catalogue copied into memory of its own. A copy needs memory, which may run out, so the catalogue isn't `Clone`.
ghost use Rattle.std.specs.Prelude.{◌≡◌, IfOk};

use crate::catalogue::Catalogue;
use crate::grid::Grid;
use crate::layer::{Dimension, Layer, Style};
use exact_ratio::{Items, Words};
use std::alloc::{AllocError, Global};

/// What is copied with memory for its texts and lists.
trait Copied: Drop + Sized {
    fn copied(&self, alloc: Global) -> Result<Self, AllocError>
        ensures { IfOk result (λ x. x ≡ self.now) };
}

fn each<T: Copied>(alloc: Global, items: &[T]) -> Result<Vec<T>, AllocError>
    ensures { IfOk result (λ v. v.items ≡ items.now) }
{
    let mut copies = Vec::with_capacity(alloc, items.len())?;
    for item in items {
        let copy = item.copied(alloc)?;
        copies.push(copy)?;
    }
    Ok(copies)
}

fn plain<T: Copy>(alloc: Global, items: &Items<T>) -> Result<Items<T>, AllocError>
    ensures { IfOk result (λ x. x ≡ items.now) }
{
    Ok(Items::of(Vec::from_slice(alloc, items.as_slice())?))
}

impl Copied for Words {
    fn copied(&self, alloc: Global) -> Result<Words, AllocError> {
        Words::new(alloc, self.bytes())
    }
}

impl<T: Copied> Copied for Items<T> {
    fn copied(&self, alloc: Global) -> Result<Items<T>, AllocError> {
        Ok(Items::of(each(alloc, self.as_slice())?))
    }
}

impl Copied for Grid {
    fn copied(&self, alloc: Global) -> Result<Grid, AllocError> {
        Ok(Grid {
            id: self.id.copied(alloc)?,
            names: self.names.copied(alloc)?,
            matrices: plain(alloc, &self.matrices)?,
        })
    }
}

impl Copied for Style {
    fn copied(&self, alloc: Global) -> Result<Style, AllocError> {
        Ok(Style {
            id: self.id.copied(alloc)?,
            breaks: plain(alloc, &self.breaks)?,
        })
    }
}

impl Copied for Dimension {
    fn copied(&self, alloc: Global) -> Result<Dimension, AllocError> {
        Ok(Dimension {
            id: self.id.copied(alloc)?,
            values: self.values.copied(alloc)?,
            default: self.default,
        })
    }
}

impl Copied for Layer {
    fn copied(&self, alloc: Global) -> Result<Layer, AllocError> {
        Ok(Layer {
            id: self.id.copied(alloc)?,
            grids: plain(alloc, &self.grids)?,
            styles: self.styles.copied(alloc)?,
            dims: self.dims.copied(alloc)?,
            meta_x: self.meta_x,
            meta_y: self.meta_y,
            gutter: self.gutter,
            cell: self.cell,
            quota: self.quota,
            ages: plain(alloc, &self.ages)?,
        })
    }
}

impl Catalogue {
    /// An equal catalogue in memory of its own. `AllocError` where memory runs out.
    pub fn copy(&self, alloc: Global) -> Result<Catalogue, AllocError>
        ensures { IfOk result (λ c. c ≡ self.now) }
    {
        Ok(Catalogue {
            digest: self.digest,
            source: self.source,
            kept_limit: self.kept_limit,
            cut_limit: self.cut_limit,
            blob_bytes: self.blob_bytes,
            quota: self.quota,
            policy: self.policy,
            grids: self.grids.copied(alloc)?,
            layers: self.layers.copied(alloc)?,
        })
    }
}
