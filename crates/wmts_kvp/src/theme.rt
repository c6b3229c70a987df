//! The theme of a query, with the values of its layer's dimensions.
ghost use Rattle.std.specs.Prelude.{◌≡◌, ◌<◌, IfOk, IsSome, length};
ghost use Rattle.catalog.specs.LookUp.{HasValues, dimension_at, dimensions_of};
ghost use Rattle.catalog.specs.Valid.{IsValid};
ghost use Rattle.dimension_key.specs.Draft.{draft_of, drafted};
ghost use Rattle.wmts_kvp.specs.Ends.{row_of};
ghost use Rattle.wmts_kvp.specs.Pairs.{value_of};
ghost use Rattle.wmts_kvp.specs.Rows.{or_refusal, dimensions};

use crate::end::ReadingEnd;
use crate::pairs::value_of;
use catalog::Catalogue;
use dimension_key::{DimFault, ThemeDraft};
use exact_ratio::Words;
use exception_report::Code;

/// The draft with the value that the pairs give to the layer's next dimension, which has this name.
fn with_value<'a>(
    mut draft: ThemeDraft,
    catalogue: &Catalogue,
    pairs: &[(Words, Words)],
    name: &'a [u8],
) -> Result<ThemeDraft, ReadingEnd<'a>>
    requires valid { IsValid catalogue.now }
    requires more { IsSome (dimension_at catalogue.now draft.theme.layer draft.count) }
    ensures value { row_of result ≡ or_refusal name.now (drafted catalogue.now (value_of pairs.now name.now) draft) }
    ensures values { IfOk result (λ next. HasValues catalogue.now draft.theme → HasValues catalogue.now next.theme) }
{
    match draft.add(catalogue, value_of(pairs, name)) {
        Ok(()) => Ok(draft),
        Err(DimFault::Missing) => Err(ReadingEnd::Refusal(Code::MissingParameterValue, name)),
        Err(DimFault::Invalid) => Err(ReadingEnd::Refusal(Code::InvalidParameterValue, name)),
    }
}

/// The theme of a layer and style with the values that the pairs give to the layer's dimensions, in the catalogue's order.
#[tactic(auto, using(crate::proofs::Dimensions::dimension_ends, crate::proofs::Dimensions::dimensions_done))]
pub fn theme<'a>(
    catalogue: &'a Catalogue,
    pairs: &[(Words, Words)],
    layer: u32,
    style: u32,
) -> Result<ThemeDraft, ReadingEnd<'a>>
    requires valid { IsValid catalogue.now }
    ensures value { row_of result ≡ dimensions catalogue.now pairs.now (dimensions_of catalogue.now layer) (draft_of layer style) }
    ensures layer { IfOk result (λ draft. draft.theme.layer ≡ layer) }
    ensures style { IfOk result (λ draft. draft.theme.style ≡ style) }
    ensures values { IfOk result (λ draft. HasValues catalogue.now draft.theme) }
{
    let mut draft = ThemeDraft::new(layer, style);
    for dimension in catalogue.dimensions_of(layer) {
        draft = with_value(draft, catalogue, pairs, dimension.id.bytes())?;
    }
    Ok(draft)
}
