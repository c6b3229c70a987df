//! Tests of catalog.
ghost use Rattle.std.specs.Prelude.{IsSome};
ghost use Rattle.catalog.specs.Demo.{demo};
ghost use Rattle.catalog.specs.LookUp.{style_of};
ghost use Rattle.catalog.specs.Valid.{IsValid};

use catalog::{
    Catalogue, CatalogueFault, Field, Policy, are_distinct, is_name, is_parameter, is_same,
};
use exact_ratio::Words;
use fixtures::sea_catalogue;
use matrix_geometry::Theme;
use std::test::Fail;

/// Whether a catalogue without faults has as large blobs as the built-in one.
fn is_as_demo(catalogue: &Catalogue) -> bool {
    catalogue.blob_bytes == 4096 && catalogue.validate() == Ok(())
}

#[test]
fn the_demo_has_no_fault(rt: HostRuntime) -> Result<(), Fail> {
    let demo = Catalogue::demo(rt.alloc())?;
    let copy = demo.copy(rt.alloc())?;
    assert!(rt; is_as_demo(&copy));
    Ok(())
}

/// Whether a catalogue has one grid, under this name, and this name is of its matrix 2.
fn has_grid(catalogue: &Catalogue, grid: &[u8], matrix: &[u8]) -> bool
    requires { IsValid catalogue.now }
{
    catalogue.grids.len() == 1
        && catalogue.grid_named(grid) == Some(0)
        && catalogue.matrix_named(0, matrix) == Some(2)
}

fn has_layer(catalogue: &Catalogue, name: &[u8]) -> bool
    requires { IsValid catalogue.now }
{
    catalogue.layer_named(name) == Some(0)
}

/// Whether the one layer of a catalogue serves the grid of this name, and has the style of this name.
fn has_in_layer(catalogue: &Catalogue, grid: &[u8], style: &[u8]) -> bool
    requires { IsValid catalogue.now }
{
    catalogue.layers.len() == 1
        && catalogue.served_grid_named(0, grid) == Some(0)
        && catalogue.style_named(0, style) == Some(0)
}

/// Whether this is the name of value 1 of dimension 1.
fn has_value(catalogue: &Catalogue, name: &[u8]) -> bool
    requires { IsValid catalogue.now }
{
    catalogue.dimension_at(0, 1).is_some() && catalogue.value_named(0, 1, name) == Some(1)
}

#[test]
fn what_has_a_name_has_its_number(rt: HostRuntime) -> Result<(), Fail> {
    let catalogue = sea_catalogue(rt.alloc())?;
    catalogue.validate()?;
    assert!(rt; has_grid(&catalogue, b"tiny", b"2"));
    assert!(rt; has_layer(&catalogue, b"sea"));
    assert!(rt; !has_layer(&catalogue, b"Sea"));
    assert!(rt; has_in_layer(&catalogue, b"tiny", b"grey"));
    assert!(rt; has_value(&catalogue, b"10"));
    Ok(())
}

#[test]
fn what_has_a_number_is_found(rt: HostRuntime) -> Result<(), Fail> {
    let catalogue = sea_catalogue(rt.alloc())?;
    let layer = catalogue.layers.get(0).ok_or("no layer")?;
    assert!(rt; layer.serves(0));
    assert!(rt; catalogue.dimensions_of(0).len() == 2);
    assert!(rt; catalogue.matrix_in(0, 2).is_some());
    assert!(rt; catalogue.matrix_in(0, 3).is_none());
    Ok(())
}

/// The theme of the built-in catalogue.
fn only_theme() -> Theme
    ensures { IsSome (style_of demo result) }
{
    Theme {
        layer: 0,
        style: 0,
        dims: [0; 4],
    }
}

fn is_named(id: &Words, name: &[u8]) -> bool {
    id.bytes() == name
}

#[test]
fn what_is_of_the_catalogue_is_there(rt: HostRuntime) -> Result<(), Fail> {
    let demo = Catalogue::demo(rt.alloc())?;
    let theme = only_theme();
    assert!(rt; is_named(&demo.layer(0).id, b"demo"));
    assert!(rt; is_named(&demo.layer_of(&theme).id, b"demo"));
    assert!(rt; is_named(&demo.style_of(&theme).id, b"grey"));
    assert!(rt; is_named(&demo.grid(0).id, b"tiny"));
    assert!(rt; demo.matrix(0, 2).rows == 4);
    Ok(())
}

// Each fault stands before those that were there already.
#[test]
fn the_first_fault_is_told(rt: HostRuntime) -> Result<(), Fail> {
    let mut worse = Catalogue::demo(rt.alloc())?;
    worse.policy = Policy::Lfu;
    worse.quota = Some((1 << 50) + 1);
    let quota = worse.validate();
    worse.kept_limit = 0;
    let kept = worse.validate();
    assert!(rt; quota == Err(CatalogueFault::Limit(Field::Quota, 0)));
    assert!(rt; kept == Err(CatalogueFault::Limit(Field::KeptLimit, 0)));
    Ok(())
}

#[test]
fn names_have_their_form(rt: HostRuntime) -> Result<(), Fail> {
    assert!(rt; is_name(b"a-Z_0.9:"));
    assert!(rt; !is_name(b"a b"));
    assert!(rt; is_parameter(b"TileMatrixSet"));
    assert!(rt; is_same(b"time", b"TIME"));
    let one = Words::new(rt.alloc(), b"1")?;
    let again = Words::new(rt.alloc(), b"1")?;
    let texts = vec![in rt.alloc(); one, again]?;
    assert!(rt; !are_distinct(texts.as_slice()));
    Ok(())
}
