//! Truncations before the parts of a composite are got, and between them.
ghost use Rattle.composite_tests.specs.Fit.{IsFit};
ghost use Rattle.layer_recipes.specs.OfCatalogue.{IsRecipeOf};

use crate::calls::{composed, cut, kept};
use crate::cutting::Cutting;
use crate::rows::{AFTER_A_CUT, AT_FIRST, DEMO, WOOD, has_numbers, has_text};
use crate::stand::{Pair, Stand, new_stand};
use source_render::Numbered;
use std::alloc::Global;
use std::sync::Wait;
use std::test::Fail;

/// Whether a composite is the same again, and newer below once another pass has truncated the lower layer.
fn is_newer_below<R: Wait>(rt: &R, alloc: Global, stand: Stand) -> bool
    requires a { IsFit stand.pair.hall.turnstile stand.pair.hall.catalogue stand.pair.a }
    requires b { IsFit stand.pair.hall.turnstile stand.pair.hall.catalogue stand.pair.b }
    requires recipe { IsRecipeOf stand.pair.hall.catalogue stand.recipe }
{
    let Stand { pair, recipe } = stand;
    let Pair { hall, mut a, mut b } = pair;
    let mut source = Numbered::new(0);
    let first = composed(rt, alloc, &hall, &mut a, &mut source, &recipe);
    let again = composed(rt, alloc, &hall, &mut a, &mut source, &recipe);
    let number = cut(rt, alloc, &hall, &mut b, WOOD);
    let newer = composed(rt, alloc, &hall, &mut a, &mut source, &recipe);
    drop((hall, a, b, recipe));
    has_numbers(&first, [1, 2])
        && has_text(&first, AT_FIRST)
        && has_numbers(&again, [1, 2])
        && has_text(&again, AT_FIRST)
        && number == Some(3)
        && has_numbers(&newer, [1, 4])
        && has_text(&newer, AFTER_A_CUT)
}

#[test]
fn a_composite_is_newer_below_after_a_truncation(rt: HostRuntime) -> Result<(), Fail> {
    let Some(stand) = new_stand(rt.alloc())? else {
        return Err(Fail::from("a text is refused"));
    };
    assert!(rt; is_newer_below(&rt, rt.alloc(), stand));
    Ok(())
}

/// Whether a truncation of the upper layer while its tile is rendered leaves that render unkept, and is seen by the next composite. A part
/// is as new as what its pass had seen when it was asked for: the upper one is older than the truncation, the lower one newer.
fn is_overtaken<R: Wait>(rt: &R, alloc: Global, stand: Stand) -> bool
    requires a { IsFit stand.pair.hall.turnstile stand.pair.hall.catalogue stand.pair.a }
    requires b { IsFit stand.pair.hall.turnstile stand.pair.hall.catalogue stand.pair.b }
    requires recipe { IsRecipeOf stand.pair.hall.catalogue stand.recipe }
{
    let Stand { pair, recipe } = stand;
    let Pair { hall, mut a, b } = pair;
    let mut cutting = Cutting::new(rt, alloc, &hall, b, DEMO);
    let first = composed(rt, alloc, &hall, &mut a, &mut cutting, &recipe);
    let number = cutting.number();
    drop(cutting);
    let above = kept(rt, &hall, &mut a, DEMO);
    let below = kept(rt, &hall, &mut a, WOOD);
    let mut source = Numbered::new(0);
    let next = composed(rt, alloc, &hall, &mut a, &mut source, &recipe);
    drop((hall, a, recipe));
    has_numbers(&first, [1, 3])
        && number == Some(2)
        && above == Some(0)
        && below == Some(1)
        && has_numbers(&next, [4, 3])
}

#[test]
fn a_part_may_be_overtaken_and_is_then_not_kept(rt: HostRuntime) -> Result<(), Fail> {
    let Some(stand) = new_stand(rt.alloc())? else {
        return Err(Fail::from("a text is refused"));
    };
    assert!(rt; is_overtaken(&rt, rt.alloc(), stand));
    Ok(())
}
