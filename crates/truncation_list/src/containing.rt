//! Whether one cover contains another, told by their fields alone.
ghost use Rattle.std.specs.List.{list_all, zip};
ghost use Rattle.std.specs.Prelude.{◌≡◌, length};
ghost use Rattle.truncation_list.specs.Contains.{contains, contains_box, contains_filter, contains_number, contains_x, contains_y, contains_zoom};

use crate::cover::Cover;
use matrix_geometry::{Box9, Filter};

fn contains_x(outer: &Box9, inner: &Box9) -> bool
    ensures { result ≡ contains_x outer.now inner.now }
{
    outer.min_x <= inner.min_x && inner.max_x <= outer.max_x
}

fn contains_y(outer: &Box9, inner: &Box9) -> bool
    ensures { result ≡ contains_y outer.now inner.now }
{
    outer.min_y <= inner.min_y && inner.max_y <= outer.max_y
}

fn contains_box(outer: Option<Box9>, inner: Option<Box9>) -> bool
    ensures { result ≡ contains_box outer inner }
{
    match outer {
        None => true,
        Some(outer) => match inner {
            None => false,
            Some(inner) => contains_x(&outer, &inner) && contains_y(&outer, &inner),
        },
    }
}

fn contains_number(outer: Option<u32>, inner: Option<u32>) -> bool
    ensures { result ≡ contains_number outer inner }
{
    match outer {
        None => true,
        Some(outer) => match inner {
            None => false,
            Some(inner) => outer == inner,
        },
    }
}

fn contains_each(outers: &[Option<u32>], inners: &[Option<u32>]) -> bool
    requires { length outers.now ≡ length inners.now }
    ensures { result ≡ list_all (λ p. contains_number p.0 p.1) (zip outers.now inners.now) }
{
    outers
        .iter()
        .zip(inners)
        .all(|(outer, inner)| contains_number(*outer, *inner))
}

fn contains_filter(outer: &Filter, inner: &Filter) -> bool
    ensures { result ≡ contains_filter outer.now inner.now }
{
    contains_number(outer.style, inner.style) && contains_each(&outer.dims, &inner.dims)
}

fn contains_zoom(outer: &Cover, inner: &Cover) -> bool
    ensures { result ≡ contains_zoom outer.now inner.now }
{
    outer.z_start <= inner.z_start && inner.z_stop <= outer.z_stop
}

/// Whether the outer cover contains the inner one, by their fields: it is then for each tile that the inner one is for.
pub fn contains(outer: &Cover, inner: &Cover) -> bool
    ensures { result ≡ contains outer.now inner.now }
{
    outer.layer == inner.layer
        && outer.grid == inner.grid
        && contains_zoom(outer, inner)
        && contains_box(outer.bounds, inner.bounds)
        && contains_filter(&outer.filter, &inner.filter)
}
