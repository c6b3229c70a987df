//! The lines of a family, each with a line feed at its end.
ghost use Rattle.std.specs.List.{flat_map};
ghost use Rattle.std.specs.Prelude.{◌≡◌, ◌++◌, OnOk};
ghost use Rattle.metrics_text.specs.Exposition.{ended, help_line, kind_text, lines_of, part_text, sample_line, type_line};

use crate::escapes::push_help;
use crate::family::{Family, MetricKind, Sample, SamplePart};
use crate::labels::push_labels;
use crate::numbers::push_number;
use std::alloc::AllocError;

/// The word of a kind.
fn kind_text(kind: MetricKind) -> &'static [u8]
    ensures { result.now ≡ kind_text kind }
{
    match kind {
        MetricKind::Counter => b"counter",
        MetricKind::Gauge => b"gauge",
        MetricKind::Histogram => b"histogram",
    }
}

/// What stands behind the family's name in that of a sample.
fn part_text(part: SamplePart) -> &'static [u8]
    ensures { result.now ≡ part_text part }
{
    match part {
        SamplePart::Itself => b"",
        SamplePart::Bucket => b"_bucket",
        SamplePart::Sum => b"_sum",
        SamplePart::Count => b"_count",
    }
}

#[tactic(auto, unfolding(crate::specs::Exposition::help_line))]
fn push_help_line(text: &mut Vec<u8>, family: &Family) -> Result<(), AllocError>
    ensures { OnOk result (text.new.items ≡ text.old.items ++ ended (help_line family.now)) }
{
    text.extend_from_slice(b"# HELP ")?;
    text.extend_from_slice(family.name.text.bytes())?;
    text.extend_from_slice(b" ")?;
    push_help(text, family.help.bytes())?;
    text.extend_from_slice(b"\n")
}

#[tactic(auto, unfolding(crate::specs::Exposition::type_line))]
fn push_type_line(text: &mut Vec<u8>, family: &Family) -> Result<(), AllocError>
    ensures { OnOk result (text.new.items ≡ text.old.items ++ ended (type_line family.now)) }
{
    text.extend_from_slice(b"# TYPE ")?;
    text.extend_from_slice(family.name.text.bytes())?;
    text.extend_from_slice(b" ")?;
    text.extend_from_slice(kind_text(family.kind))?;
    text.extend_from_slice(b"\n")
}

#[tactic(auto, unfolding(crate::specs::Exposition::sample_line))]
fn push_sample_line(text: &mut Vec<u8>, name: &[u8], sample: &Sample) -> Result<(), AllocError>
    ensures { OnOk result (text.new.items ≡ text.old.items ++ ended (sample_line name.now sample.now)) }
{
    text.extend_from_slice(name)?;
    text.extend_from_slice(part_text(sample.part))?;
    push_labels(text, sample.labels.as_slice())?;
    text.extend_from_slice(b" ")?;
    push_number(text, sample.number)?;
    text.extend_from_slice(b"\n")
}

fn push_sample_lines(text: &mut Vec<u8>, name: &[u8], samples: &[Sample]) -> Result<(), AllocError>
    ensures { OnOk result (text.new.items ≡ text.old.items ++ flat_map (λ s. ended (sample_line name.now s)) samples.now) }
{
    for sample in samples {
        push_sample_line(text, name, sample)?;
    }
    Ok(())
}

/// Appends the lines of a family. `AllocError` where memory runs out.
#[tactic(auto, using(crate::proofs::Joined::family_text))]
pub(crate) fn push_lines(text: &mut Vec<u8>, family: &Family) -> Result<(), AllocError>
    ensures { OnOk result (text.new.items ≡ text.old.items ++ flat_map ended (lines_of family.now)) }
{
    push_help_line(text, family)?;
    push_type_line(text, family)?;
    push_sample_lines(text, family.name.text.bytes(), family.samples.as_slice())
}
