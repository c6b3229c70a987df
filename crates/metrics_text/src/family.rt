//! What is measured: families of samples, and the labels of these.
use crate::names::{LabelName, MetricName};
use exact_ratio::Words;

/// What the samples of a family are.
#[derive(Clone, Copy, PartialEq, Eq)]
pub enum MetricKind {
    /// A count that never falls, but to 0 where the program begins anew.
    Counter,
    /// A number that may rise and fall.
    Gauge,
    /// Counts of what was at most so large, by the label `le`, with the sum and the count of all.
    Histogram,
}

/// Which of a family's samples one is. Those of counters and gauges are `Itself`, those of a histogram one of the others.
#[derive(Clone, Copy, PartialEq, Eq)]
pub enum SamplePart {
    /// The sample has the family's own name.
    Itself,
    /// How many were at most as large as the label `le` says.
    Bucket,
    /// The sum of all.
    Sum,
    /// How many there were.
    Count,
}

/// The number of a sample.
#[derive(Clone, Copy, PartialEq, Eq)]
pub enum Number {
    Whole(u64),
    /// So many millionths of a second, told in seconds.
    Micros(u64),
    /// So many billionths of a second, told in seconds.
    Nanos(u64),
}

/// A label of a sample.
#[derive(Drop)]
pub struct Label {
    pub name: LabelName,
    /// Any text, in UTF-8.
    pub value: Words,
}

/// A number that was measured.
#[derive(Drop)]
pub struct Sample {
    pub part: SamplePart,
    /// In the order in which they are told; no two of one name.
    pub labels: Vec<Label>,
    pub number: Number,
}

/// All samples of a metric.
#[derive(Drop)]
pub struct Family {
    pub name: MetricName,
    /// What is measured, and in which unit, in UTF-8.
    pub help: Words,
    pub kind: MetricKind,
    /// In the order in which they are told; no two of one part with the same labels.
    pub samples: Vec<Sample>,
}
