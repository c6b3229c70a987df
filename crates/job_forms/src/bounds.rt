//! The box of a cover, in billionths of a unit.
ghost use Rattle.std.specs.Prelude.{◌≡◌, ◌≤◌, ◌^◌, codes, map, option_map, unsigned_abs, IfOk, IfSome};
ghost use Rattle.job_forms.specs.Bounds.{bound, box_of, box_if_any, four, in_order, limited};
ghost use Rattle.matrix_geometry.specs.Limits.{IsReachable};
ghost use Rattle.serde_json.specs.Find.{get};
ghost use Rattle.serde_json.specs.View.{view};

use crate::fault::{JobFault, JobField};
use json_forms::{DecimalText, decimal_text, values_of};
use matrix_geometry::{Box9, coordinate};
use serde_json::Value;

/// The four edges of a box in a list of values.
fn four(values: &[Value]) -> Option<(&Value, &Value, &Value, &Value)>
    ensures { option_map (λ p. (view p.0.now, view p.1.now, view p.2.now, view p.3.now)) result ≡ four (map view values.now) }
{
    match values {
        [a, b, c, d] => Some((a, b, c, d)),
        _ => None,
    }
}

fn bound(value: &Value) -> Result<DecimalText, JobFault>
    ensures { result ≡ bound (view value.now) }
{
    match decimal_text(value) {
        Some(text) => Ok(text),
        None => Err(JobFault::Bad(JobField::Bounds)),
    }
}

/// A bound in billionths of a unit.
fn bound_of(text: DecimalText) -> Result<i64, JobFault>
    ensures value { result ≡ limited text }
    ensures small { IfOk result (λ n. unsigned_abs n ≤ 10 ^ 17) }
{
    match text {
        DecimalText::TooLong => Err(JobFault::Limit(JobField::Bounds)),
        DecimalText::Number(x) => match coordinate(&x) {
            Some(n) => Ok(n),
            None => Err(JobFault::Limit(JobField::Bounds)),
        },
    }
}

fn in_order(bounds: Box9) -> Result<Box9, JobFault>
    ensures value { result ≡ in_order bounds }
    ensures same { IfOk result (λ b. b ≡ bounds) }
{
    if bounds.min_x <= bounds.max_x && bounds.min_y <= bounds.max_y {
        Ok(bounds)
    } else {
        Err(JobFault::Bad(JobField::Bounds))
    }
}

/// A box of four decimal texts.
#[tactic(auto, unfolding(crate::specs::Bounds::box_of))]
fn box_of(value: &Value) -> Result<Box9, JobFault>
    ensures value { result ≡ box_of (view value.now) }
    ensures reach { IfOk result (λ b. IsReachable b) }
{
    let values = values_of(value).ok_or(JobFault::Bad(JobField::Bounds))?;
    let (left, lower, right, upper) = four(values).ok_or(JobFault::Bad(JobField::Bounds))?;
    let left = bound(left)?;
    let lower = bound(lower)?;
    let right = bound(right)?;
    let upper = bound(upper)?;
    let min_x = bound_of(left)?;
    let min_y = bound_of(lower)?;
    let max_x = bound_of(right)?;
    let max_y = bound_of(upper)?;
    in_order(Box9 {
        min_x,
        min_y,
        max_x,
        max_y,
    })
}

/// The box of a cover, where one is given.
pub fn box_if_any(object: &Value) -> Result<Option<Box9>, JobFault>
    ensures value { result ≡ box_if_any (get (codes "bounds") (view object.now)) }
    ensures reach { IfOk result (λ bounds. IfSome bounds IsReachable) }
{
    match object.get("bounds") {
        None => Ok(None),
        Some(value) => Ok(Some(box_of(value)?)),
    }
}
