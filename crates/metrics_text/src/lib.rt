//! Prometheus' text of what is measured: families of counts and of seconds (Prometheus, "Exposition formats", text format 0.0.4).
//!
//! Promises: `write_metrics` gives `metrics_of` (`specs/Exposition.antt`), byte for byte: of each family its help text, its kind and its
//! samples, a line each, escapes included. `MetricName` and `LabelName` hold names of the format alone. `laws_of_metrics`: no line
//! has a line feed in it, whatever help texts and labels say; the text of families is that of each in turn; who reads a label's value by
//! the format finds it again, and what stands behind it (`specs/Reading.antt`).
//! Stands on exact_ratio for its texts. Nothing uses it yet.
#![tactic(auto)]

mod escapes;
mod exposition;
mod family;
mod labels;
mod laws;
mod lines;
mod names;
mod numbers;

pub use exposition::write_metrics;
pub use family::{Family, Label, MetricKind, Number, Sample, SamplePart};
pub use laws::laws_of_metrics;
pub use names::{LabelName, MetricName, is_label_name, is_metric_name};
