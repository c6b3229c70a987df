//! How a theme is read, one dimension of its layer after the other.
ghost use Rattle.std.specs.Prelude.{◌≡◌, OnErr, IsSome, MatchResult, Ok, Err, option_copied};
ghost use Rattle.catalog.specs.LookUp.{HasValues, dimension_at};
ghost use Rattle.catalog.specs.Valid.{IsValid};
ghost use Rattle.catalog.specs.declared.catalogue.Catalogue.{Catalogue};
ghost use Rattle.dimension_key.specs.Draft.{draft_of, default_of, drafted};

use crate::draft::{DimFault, ThemeDraft};
use catalog::{Catalogue, Dimension};
use matrix_geometry::Theme;

/// The number of a dimension's default.
fn default_of(catalogue: &Catalogue, layer: u32, dim: u32) -> Option<u32>
    ensures { result ≡ default_of catalogue.now layer dim }
{
    catalogue.dimension_at(layer, dim)?.default
}

impl ThemeDraft {
    /// A draft with no value yet, of a theme of this layer and style. In each valid catalogue 0 is the number of a value.
    #[tactic(auto, using(crate::proofs::Values::first_values))]
    pub fn new(layer: u32, style: u32) -> ThemeDraft
        ensures draft { result ≡ draft_of layer style }
        ensures values { (c : Catalogue) → IsValid c → HasValues c result.theme }
    {
        ThemeDraft {
            theme: Theme {
                layer,
                style,
                dims: [0; 4],
            },
            count: 0,
        }
    }

    /// The layer's dimension whose value is read next; `None` exactly where each has its value.
    pub fn next_dimension<'a>(&self, catalogue: &'a Catalogue) -> Option<&'a Dimension>
        ensures { option_copied result ≡ dimension_at catalogue.now self.now.theme.layer self.now.count }
    {
        catalogue.dimension_at(self.theme.layer, self.count)
    }

    /// Reads the value of the layer's next dimension, its default where there is none. `Missing` exactly where there is
    /// neither, `Invalid` exactly where the value isn't listed; the draft then stays as it was. Its values stay values of the
    /// layer's dimensions.
    pub fn add(&mut self, catalogue: &Catalogue, value: Option<&[u8]>) -> Result<(), DimFault>
        requires valid { IsValid catalogue.now }
        requires more { IsSome (dimension_at catalogue.now self.old.theme.layer self.old.count) }
        ensures answer { MatchResult result
            (λ _. drafted catalogue.now (option_copied value.entry) self.old ≡ Ok self.new)
            (λ fault. drafted catalogue.now (option_copied value.entry) self.old ≡ Err fault) }
        ensures refused { OnErr result (self.new ≡ self.old) }
        ensures values { HasValues catalogue.now self.old.theme → HasValues catalogue.now self.new.theme }
    {
        let layer = self.theme.layer;
        let number = match value {
            None => default_of(catalogue, layer, self.count).ok_or(DimFault::Missing)?,
            Some(text) => catalogue
                .value_named(layer, self.count, text)
                .ok_or(DimFault::Invalid)?,
        };
        self.theme.dims[self.count as usize] = number;
        self.count += 1;
        Ok(())
    }

    /// The theme of the values that were read; whole once each dimension of the layer has its value.
    pub fn done(self) -> Theme
        ensures { result ≡ self.theme }
    {
        self.theme
    }
}
