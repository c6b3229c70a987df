//! A source that fails at a part, over a hall.
ghost use Rattle.composite_tests.specs.Fit.{IsFit};
ghost use Rattle.layer_recipes.specs.OfCatalogue.{IsRecipeOf};

use crate::calls::{composed, kept};
use crate::rows::{DEMO, WOOD, has_failed, has_numbers};
use crate::stand::{Pair, Stand, new_stand};
use source_render::Scripted;
use std::alloc::Global;
use std::sync::Wait;
use std::test::Fail;

/// Whether the fault of the source's call ends the composite, so many metatiles of the upper layer are then kept and none of the lower
/// one, and the next composite has these numbers.
fn ends_with_a_fault<R: Wait>(
    rt: &R,
    alloc: Global,
    stand: Stand,
    source: Scripted,
    above: u32,
    numbers: [u64; 2],
) -> bool
    requires a { IsFit stand.pair.hall.turnstile stand.pair.hall.catalogue stand.pair.a }
    requires recipe { IsRecipeOf stand.pair.hall.catalogue stand.recipe }
{
    let Stand { pair, recipe } = stand;
    let Pair { hall, mut a, b } = pair;
    let mut source = source;
    let first = composed(rt, alloc, &hall, &mut a, &mut source, &recipe);
    let kept_above = kept(rt, &hall, &mut a, DEMO);
    let kept_below = kept(rt, &hall, &mut a, WOOD);
    let next = composed(rt, alloc, &hall, &mut a, &mut source, &recipe);
    drop((hall, a, b, recipe, source));
    has_failed(&first)
        && kept_above == Some(above)
        && kept_below == Some(0)
        && has_numbers(&next, numbers)
}

/// No number is given to the lower part where the upper one fails.
#[test]
fn a_fault_of_the_upper_part_asks_for_none_below(rt: HostRuntime) -> Result<(), Fail> {
    let fails = vec![in rt.alloc(); 1]?;
    let Some(stand) = new_stand(rt.alloc())? else {
        return Err(Fail::from("a text is refused"));
    };
    let source = Scripted::new(0, fails);
    assert!(rt; ends_with_a_fault(&rt, rt.alloc(), stand, source, 0, [2, 3]));
    Ok(())
}

#[test]
fn a_fault_of_the_lower_part_leaves_the_upper_one_kept(rt: HostRuntime) -> Result<(), Fail> {
    let fails = vec![in rt.alloc(); 2]?;
    let Some(stand) = new_stand(rt.alloc())? else {
        return Err(Fail::from("a text is refused"));
    };
    let source = Scripted::new(0, fails);
    assert!(rt; ends_with_a_fault(&rt, rt.alloc(), stand, source, 1, [1, 3]));
    Ok(())
}
