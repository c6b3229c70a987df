//! The names of metrics and of labels.
ghost use Rattle.std.specs.List.{list_all};
ghost use Rattle.std.specs.Prelude.{◌≡◌, IfOk, true};
ghost use Rattle.metrics_text.specs.Names.{begins_label, begins_metric, continues_label, continues_metric, is_figure, is_label_name, is_metric_name};

use exact_ratio::Words;
use std::alloc::{AllocError, Global};

/// The name of a metric: a letter of ASCII, `_` or `:`, and then such and figures.
#[derive(Drop)]
pub struct MetricName {
    pub text: Words,
    pub ghost is_name: { is_metric_name text ≡ true },
}

/// The name of a label: a letter of ASCII or `_`, and then such and figures.
#[derive(Drop)]
pub struct LabelName {
    pub text: Words,
    pub ghost is_name: { is_label_name text ≡ true },
}

fn begins_label(byte: u8) -> bool
    ensures { result ≡ begins_label byte }
{
    byte.is_ascii_alphabetic() || byte == b'_'
}

fn begins_metric(byte: u8) -> bool
    ensures { result ≡ begins_metric byte }
{
    begins_label(byte) || byte == b':'
}

fn is_figure(byte: u8) -> bool
    ensures { result ≡ is_figure byte }
{
    byte.is_ascii_digit()
}

fn continues_label(byte: u8) -> bool
    ensures { result ≡ continues_label byte }
{
    begins_label(byte) || is_figure(byte)
}

fn continues_metric(byte: u8) -> bool
    ensures { result ≡ continues_metric byte }
{
    begins_metric(byte) || is_figure(byte)
}

fn continue_label(text: &[u8]) -> bool
    ensures { result ≡ list_all continues_label text.now }
{
    text.iter().all(|byte| continues_label(*byte))
}

fn continue_metric(text: &[u8]) -> bool
    ensures { result ≡ list_all continues_metric text.now }
{
    text.iter().all(|byte| continues_metric(*byte))
}

/// Whether a text is the name of a metric, `[a-zA-Z_:][a-zA-Z0-9_:]*` (Prometheus, "Data model").
pub fn is_metric_name(text: &[u8]) -> bool
    ensures { result ≡ is_metric_name text.now }
{
    match text {
        [] => false,
        [first, others @ ..] => begins_metric(*first) && continue_metric(others),
    }
}

/// Whether a text is the name of a label, `[a-zA-Z_][a-zA-Z0-9_]*` (Prometheus, "Data model").
pub fn is_label_name(text: &[u8]) -> bool
    ensures { result ≡ is_label_name text.now }
{
    match text {
        [] => false,
        [first, others @ ..] => begins_label(*first) && continue_label(others),
    }
}

impl MetricName {
    /// The name of a metric that a text is (`is_metric_name`). `AllocError` where memory runs out.
    pub fn new(alloc: Global, text: &[u8]) -> Result<MetricName, AllocError>
        requires name { is_metric_name text.now ≡ true }
        ensures { IfOk result (λ name. name.text ≡ text.now) }
    {
        Ok(MetricName {
            text: Words::new(alloc, text)?,
        })
    }
}

impl LabelName {
    /// The name of a label that a text is (`is_label_name`). `AllocError` where memory runs out.
    pub fn new(alloc: Global, text: &[u8]) -> Result<LabelName, AllocError>
        requires name { is_label_name text.now ≡ true }
        ensures { IfOk result (λ name. name.text ≡ text.now) }
    {
        Ok(LabelName {
            text: Words::new(alloc, text)?,
        })
    }
}
