//! The first fault of a style: its name, and breaks that have to rise strictly from 0.
ghost use Rattle.std.specs.Prelude.{◌≡◌, ◌<◌, ◌≤◌, ◌^◌, length, nat_le};
ghost use Rattle.catalog.specs.FirstFault.{rise_above, rise_from_zero, style_test};

use crate::fault::{CatalogueFault, Field};
use crate::first_fault::{Entry, name_test, unless};
use crate::layer::{Break, Style};
use crate::named::Named;

fn rise_above(least: u8, breaks: &[Break]) -> bool
    ensures { result ≡ rise_above least breaks.now }
{
    let mut last = least;
    for colour in breaks {
        if colour.from <= last {
            return false;
        }
        last = colour.from;
    }
    true
}

/// Whether there are no breaks, or they rise strictly from 0.
pub fn rise_from_zero(breaks: &[Break]) -> bool
    ensures { result ≡ rise_from_zero breaks.now }
{
    match breaks {
        [] => true,
        [first, others @ ..] => {
            if first.from != 0 {
                return false;
            }
            rise_above(0, others)
        }
    }
}

impl Named for Style {
    ghost name = { λ s. s.id };

    fn name(&self) -> &[u8] {
        self.id.bytes()
    }
}

#[tactic(auto, unfolding(crate::specs::FirstFault::style_test))]
fn style_test(before: &[Style], style: &Style) -> Result<(), CatalogueFault>
    requires { length before.now < 2 ^ 32 }
    ensures { result ≡ style_test before.now style.now }
{
    let at = before.len() as u32;
    name_test(before, Field::StyleId, at, style.id.bytes())?;
    unless(
        style.breaks.len() <= 256,
        CatalogueFault::Limit(Field::Breaks, at),
    )?;
    unless(
        rise_from_zero(style.breaks.as_slice()),
        CatalogueFault::Bad(Field::Breaks, at),
    )
}

impl Entry for Style {
    ghost test = { λ before s. style_test before s };

    fn test(&self, before: &[Style]) -> Result<(), CatalogueFault> {
        style_test(before, self)
    }
}
