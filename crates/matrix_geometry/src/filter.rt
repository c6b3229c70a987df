//! Which themes a filter admits. The types of both stand in `theme`.
ghost use Rattle.std.specs.Prelude.{◌≡◌};
ghost use Rattle.matrix_geometry.specs.Admits.{admits, admits_number, admits_values};

use crate::theme::{Filter, Theme};

fn admits_number(wanted: Option<u32>, number: u32) -> bool
    ensures { result ≡ admits_number wanted number }
{
    match wanted {
        None => true,
        Some(only) => only == number,
    }
}

fn admits_values(wanted: &[Option<u32>], values: &[u32]) -> bool
    ensures { result ≡ admits_values wanted.now values.now }
{
    wanted
        .iter()
        .zip(values)
        .all(|(only, value)| admits_number(*only, *value))
}

impl Filter {
    /// Whether this filter lets a theme pass: the style that it wants, if any, is the theme's, and so is each value.
    pub fn admits(&self, theme: &Theme) -> bool
        ensures { result ≡ admits self.now theme.now }
    {
        admits_number(self.style, theme.style) && admits_values(&self.dims, &theme.dims)
    }
}
