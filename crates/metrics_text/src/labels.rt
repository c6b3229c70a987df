//! The labels of a sample as a text.
ghost use Rattle.std.specs.List.{flat_map};
ghost use Rattle.std.specs.Prelude.{◌≡◌, ◌++◌, OnOk, codes};
ghost use Rattle.metrics_text.specs.Exposition.{label_text, labels_text};

use crate::escapes::push_value;
use crate::family::Label;
use std::alloc::AllocError;

fn push_label(text: &mut Vec<u8>, label: &Label) -> Result<(), AllocError>
    ensures { OnOk result (text.new.items ≡ text.old.items ++ label_text label.now) }
{
    text.extend_from_slice(label.name.text.bytes())?;
    text.extend_from_slice(b"=\"")?;
    push_value(text, label.value.bytes())?;
    text.extend_from_slice(b"\"")
}

/// Appends labels with a comma before each.
fn push_others(text: &mut Vec<u8>, labels: &[Label]) -> Result<(), AllocError>
    ensures { OnOk result (text.new.items ≡ text.old.items ++ flat_map (λ k. codes "," ++ label_text k) labels.now) }
{
    for label in labels {
        text.extend_from_slice(b",")?;
        push_label(text, label)?;
    }
    Ok(())
}

/// Appends the labels of a sample in their braces, or nothing where there are none. `AllocError` where memory runs out.
pub(crate) fn push_labels(text: &mut Vec<u8>, labels: &[Label]) -> Result<(), AllocError>
    ensures { OnOk result (text.new.items ≡ text.old.items ++ labels_text labels.now) }
{
    match labels {
        [] => Ok(()),
        [first, others @ ..] => {
            text.extend_from_slice(b"{")?;
            push_label(text, first)?;
            push_others(text, others)?;
            text.extend_from_slice(b"}")
        }
    }
}
