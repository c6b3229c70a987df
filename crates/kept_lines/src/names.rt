//! The names of a metatile's parts.
ghost use Rattle.std.specs.Prelude.{◌≡◌};
ghost use Rattle.kept_lines.specs.Lines.{grid_id, layer_id, matrix_name, style_id};

use catalog::Catalogue;
use metatile_plan::MetaKey;

/// The identifier of its layer.
pub(crate) fn layer_id<'a>(catalogue: &'a Catalogue, meta: &MetaKey) -> &'a [u8]
    ensures { result.now ≡ layer_id catalogue.now meta.now }
{
    match catalogue.layers.get(meta.theme.layer as usize) {
        Some(layer) => layer.id.bytes(),
        None => b"",
    }
}

/// The identifier of its style.
pub(crate) fn style_id<'a>(catalogue: &'a Catalogue, meta: &MetaKey) -> &'a [u8]
    ensures { result.now ≡ style_id catalogue.now meta.now }
{
    let Some(layer) = catalogue.layers.get(meta.theme.layer as usize) else {
        return b"";
    };
    match layer.styles.get(meta.theme.style as usize) {
        Some(style) => style.id.bytes(),
        None => b"",
    }
}

/// The identifier of its grid.
pub(crate) fn grid_id<'a>(catalogue: &'a Catalogue, meta: &MetaKey) -> &'a [u8]
    ensures { result.now ≡ grid_id catalogue.now meta.now }
{
    match catalogue.grids.get(meta.grid as usize) {
        Some(grid) => grid.id.bytes(),
        None => b"",
    }
}

/// The name of its matrix.
pub(crate) fn matrix_name<'a>(catalogue: &'a Catalogue, meta: &MetaKey) -> &'a [u8]
    ensures { result.now ≡ matrix_name catalogue.now meta.now }
{
    let Some(grid) = catalogue.grids.get(meta.grid as usize) else {
        return b"";
    };
    match grid.names.get(meta.z as usize) {
        Some(name) => name.bytes(),
        None => b"",
    }
}
