//! The members that the objects of a catalogue's text can have.
ghost use Rattle.std.specs.Prelude.{◌≡◌, bytes_eq};
ghost use Rattle.fault_paths.specs.Unknown.{is_of_outermost, is_of_grid, is_of_matrix, is_of_layer, is_of_style, is_of_dimension, is_known};

use crate::fields::Owner;

/// Whether two texts are the same.
fn is_same(name: &[u8], other: &[u8]) -> bool
    ensures { result ≡ bytes_eq name.now other.now }
{
    name == other
}

/// Whether the outermost object can have a member of this name.
#[tactic(auto, unfolding(crate::specs::Unknown::is_of_outermost))]
fn is_of_outermost(name: &[u8]) -> bool
    ensures { result ≡ is_of_outermost name.now }
{
    is_same(b"source", name)
        || is_same(b"keptLimit", name)
        || is_same(b"cutLimit", name)
        || is_same(b"blobBytes", name)
        || is_same(b"quota", name)
        || is_same(b"policy", name)
        || is_same(b"grids", name)
        || is_same(b"layers", name)
}

/// Whether a grid can have a member of this name.
#[tactic(auto, unfolding(crate::specs::Unknown::is_of_grid))]
fn is_of_grid(name: &[u8]) -> bool
    ensures { result ≡ is_of_grid name.now }
{
    is_same(b"id", name)
        || is_same(b"metersPerUnit", name)
        || is_same(b"corner", name)
        || is_same(b"matrices", name)
}

/// Whether a matrix can have a member of this name.
#[tactic(auto, unfolding(crate::specs::Unknown::is_of_matrix))]
fn is_of_matrix(name: &[u8]) -> bool
    ensures { result ≡ is_of_matrix name.now }
{
    is_same(b"id", name)
        || is_same(b"corner", name)
        || is_same(b"span", name)
        || is_same(b"scale", name)
        || is_same(b"tile", name)
        || is_same(b"size", name)
}

/// Whether a layer can have a member of this name.
#[tactic(auto, unfolding(crate::specs::Unknown::is_of_layer))]
fn is_of_layer(name: &[u8]) -> bool
    ensures { result ≡ is_of_layer name.now }
{
    is_same(b"id", name)
        || is_same(b"grids", name)
        || is_same(b"styles", name)
        || is_same(b"dimensions", name)
        || is_same(b"meta", name)
        || is_same(b"gutter", name)
        || is_same(b"cell", name)
        || is_same(b"quota", name)
        || is_same(b"ages", name)
}

/// Whether a style can have a member of this name.
#[tactic(auto, unfolding(crate::specs::Unknown::is_of_style))]
fn is_of_style(name: &[u8]) -> bool
    ensures { result ≡ is_of_style name.now }
{
    is_same(b"id", name) || is_same(b"breaks", name)
}

/// Whether a dimension can have a member of this name.
#[tactic(auto, unfolding(crate::specs::Unknown::is_of_dimension))]
fn is_of_dimension(name: &[u8]) -> bool
    ensures { result ≡ is_of_dimension name.now }
{
    is_same(b"id", name) || is_same(b"values", name) || is_same(b"default", name)
}

/// Whether an object can have a member of this name.
pub(crate) fn is_known(owner: Owner, name: &[u8]) -> bool
    ensures { result ≡ is_known owner name.now }
{
    match owner {
        Owner::Outermost => is_of_outermost(name),
        Owner::Grid => is_of_grid(name),
        Owner::Matrix => is_of_matrix(name),
        Owner::Layer => is_of_layer(name),
        Owner::Style => is_of_style(name),
        Owner::Dimension => is_of_dimension(name),
    }
}
