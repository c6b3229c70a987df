//! Where a mistake can be.
ghost use Rattle.std.specs.Prelude.{◌≡◌};
ghost use Rattle.fault_paths.specs.Fitting.{can_be, has, has_default, is_needed};
ghost use Rattle.serde_json.specs.View.{view};

use crate::fields::name_of;
use catalog::Field;
use serde_json::Value;

/// What is wrong with a member.
#[derive(Clone, Copy, PartialEq, Eq)]
pub enum Mistake {
    /// It has to be there, and isn't.
    Absence,
    /// It is outside its limit, or what stands for it is.
    Excess,
    /// It has another form, names what isn't there, or is a name that stands a second time.
    Other,
}

/// Whether an object has a member of this name.
fn has(object: &Value, name: &str) -> bool
    ensures { result ≡ has name.now (view object.now) }
{
    object.get(name).is_some()
}

/// Whether a member that is absent has to be there.
fn is_needed(field: Field, object: &Value) -> bool
    ensures { result ≡ is_needed field (view object.now) }
{
    match field {
        Field::Scale => !has(object, "span"),
        _ => true,
    }
}

/// Whether something else stands for a member that is absent.
fn has_default(field: Field) -> bool
    ensures { result ≡ has_default field }
{
    match field {
        Field::MatrixCorner | Field::Meta => true,
        _ => false,
    }
}

/// Whether the member of a field can have this mistake in this object.
pub(crate) fn can_be(mistake: Mistake, field: Field, object: &Value) -> bool
    ensures { result ≡ can_be mistake field (view object.now) }
{
    let is_there = has(object, name_of(field));
    match mistake {
        Mistake::Absence => {
            if is_there {
                false
            } else {
                is_needed(field, object)
            }
        }
        Mistake::Excess => { if is_there { true } else { has_default(field) } }
        Mistake::Other => is_there,
    }
}
