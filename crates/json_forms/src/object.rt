//! Texts that are one JSON object.
ghost use Rattle.std.specs.Prelude.{◌≡◌, IfOk, option_map};
ghost use Rattle.json_forms.specs.Forms.{object_of};
ghost use Rattle.serde_json.specs.View.{view};

use serde_json::Value;
use std::alloc::{AllocError, Global};

/// The object that a text is; `None` where the text isn't one JSON object. `AllocError` where memory runs out.
pub fn object_in(alloc: Global, text: &[u8]) -> Result<Option<Value>, AllocError>
    ensures { IfOk result (λ object. option_map view object ≡ object_of text.now) }
{
    match Value::from_slice(alloc, text) {
        Err(e) => {
            if e.is_memory() {
                return Err(AllocError);
            }
            Ok(None)
        }
        Ok(value) => {
            if value.is_object() {
                return Ok(Some(value));
            }
            Ok(None)
        }
    }
}
