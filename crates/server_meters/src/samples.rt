//! Families of one sample and of several, as `metrics_text` has them.
ghost use Rattle.metrics_text.specs.Names.{is_label_name, is_metric_name};
ghost use Rattle.std.specs.Prelude.{◌≡◌, true};

use crate::durations::DurationTally;
use exact_ratio::Words;
use metrics_text::{Family, Label, LabelName, MetricKind, MetricName, Number, Sample, SamplePart};
use std::alloc::{AllocError, Global};

/// A label of this name and value. `AllocError` where memory runs out.
pub(crate) fn label(alloc: Global, name: &[u8], value: &[u8]) -> Result<Label, AllocError>
    requires name { is_label_name name.now ≡ true }
{
    Ok(Label {
        name: LabelName::new(alloc, name)?,
        value: Words::new(alloc, value)?,
    })
}

/// A family with no sample yet. `AllocError` where memory runs out.
pub(crate) fn family(
    alloc: Global,
    name: &[u8],
    help: &[u8],
    kind: MetricKind,
) -> Result<Family, AllocError>
    requires name { is_metric_name name.now ≡ true }
{
    Ok(Family {
        name: MetricName::new(alloc, name)?,
        help: Words::new(alloc, help)?,
        kind,
        samples: Vec::new(alloc),
    })
}

/// A sample with the family's own name. `AllocError` where memory runs out.
pub(crate) fn add_sample(
    family: &mut Family,
    labels: Vec<Label>,
    count: u64,
) -> Result<(), AllocError> {
    family.samples.push(Sample {
        part: SamplePart::Itself,
        labels,
        number: Number::Whole(count),
    })?;
    Ok(())
}

/// A family of one number without a label. `AllocError` where memory runs out.
pub(crate) fn single(
    alloc: Global,
    name: &[u8],
    help: &[u8],
    kind: MetricKind,
    count: u64,
) -> Result<Family, AllocError>
    requires name { is_metric_name name.now ≡ true }
{
    let mut made = family(alloc, name, help, kind)?;
    add_sample(&mut made, Vec::new(alloc), count)?;
    Ok(made)
}

/// The bounds in seconds, and what has none.
const BOUND_TEXTS: [&[u8]; 11] = [
    b"0.001", b"0.003", b"0.01", b"0.03", b"0.1", b"0.3", b"1", b"3", b"10", b"30", b"+Inf",
];

/// Adds how many took at most as long as a bound says. `AllocError` where memory runs out.
fn add_bucket(
    alloc: Global,
    family: &mut Family,
    bound: &[u8],
    count: u64,
) -> Result<(), AllocError> {
    let mut labels = Vec::new(alloc);
    labels.push(label(alloc, b"le", bound)?)?;
    family.samples.push(Sample {
        part: SamplePart::Bucket,
        labels,
        number: Number::Whole(count),
    })?;
    Ok(())
}

/// Adds a histogram's buckets, each with what the ones before it have.
fn add_buckets(
    alloc: Global,
    family: &mut Family,
    tally: &DurationTally,
) -> Result<(), AllocError> {
    let mut count = 0u64;
    for place in 0..11usize {
        count = count.saturating_add(tally.within[place]);
        add_bucket(alloc, family, BOUND_TEXTS[place], count)?;
    }
    Ok(())
}

/// A histogram of durations, in seconds. `AllocError` where memory runs out.
pub(crate) fn histogram(
    alloc: Global,
    name: &[u8],
    help: &[u8],
    tally: &DurationTally,
) -> Result<Family, AllocError>
    requires name { is_metric_name name.now ≡ true }
{
    let mut made = family(alloc, name, help, MetricKind::Histogram)?;
    add_buckets(alloc, &mut made, tally)?;
    made.samples.push(Sample {
        part: SamplePart::Sum,
        labels: Vec::new(alloc),
        number: Number::Micros(tally.micros),
    })?;
    made.samples.push(Sample {
        part: SamplePart::Count,
        labels: Vec::new(alloc),
        number: Number::Whole(tally.count()),
    })?;
    Ok(made)
}
