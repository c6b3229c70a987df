//! Tests of dimension_key.
ghost use Rattle.catalog.specs.Valid.{IsValid};

use catalog::Catalogue;
use dimension_key::{DimFault, ThemeDraft};
use fixtures::sea_catalogue;
use std::test::Fail;

/// What the next value of a draft is answered; `None` where no dimension is left.
fn added(
    draft: &mut ThemeDraft,
    catalogue: &Catalogue,
    value: Option<&[u8]>,
) -> Option<Result<(), DimFault>>
    requires { IsValid catalogue.now }
{
    if draft.next_dimension(catalogue).is_some() {
        return Some(draft.add(catalogue, value));
    }
    None
}

#[test]
fn a_value_is_named_or_the_default_or_refused(rt: HostRuntime) -> Result<(), Fail> {
    let catalogue = sea_catalogue(rt.alloc())?;
    catalogue.validate()?;
    let mut draft = ThemeDraft::new(0, 0);
    assert!(rt; added(&mut draft, &catalogue, None) == Some(Ok(())));
    let missing = added(&mut draft, &catalogue, None);
    assert!(rt; missing == Some(Err(DimFault::Missing)));
    assert!(rt; added(&mut draft, &catalogue, Some(b"10")) == Some(Ok(())));
    let dims = draft.done().dims;
    assert!(rt; dims == [0, 1, 0, 0]);
    Ok(())
}
