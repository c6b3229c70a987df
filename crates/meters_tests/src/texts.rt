//! metrics_text: the text of a few families, and server_meters: that of a server's
use exact_ratio::Words;
use metrics_text::{
    Family, Label, LabelName, MetricKind, MetricName, Number, Sample, SamplePart, is_label_name,
    is_metric_name, write_metrics,
};
use server_meters::{Health, Levels, Meters, Outcome};
use std::alloc::{AllocError, Global};
use std::test::Fail;

/// What the format's page spells in such words: two labels, escapes, and a histogram.
const EXPECTED: &[u8] =
    b"# HELP http_requests_total The total number of HTTP requests.\n# TYPE http_requests_total counter\nhttp_requests_total{method=\"post\",code=\"200\"} 1027\nhttp_requests_total{method=\"post\",code=\"400\"} 3\n# HELP file_seconds A \"path\" \\\\ and\\nmore.\n# TYPE file_seconds gauge\nfile_seconds{path=\"C:\\\\DIR\\\\FILE.TXT\",error=\"Cannot find file:\\n\\\"FILE.TXT\\\"\"} 12.000345\n# HELP took_seconds How long it took.\n# TYPE took_seconds histogram\ntook_seconds_bucket{le=\"0.05\"} 24054\ntook_seconds_bucket{le=\"+Inf\"} 144320\ntook_seconds_sum 53423.000000001\ntook_seconds_count 144320\n";

/// Adds a label to a sample's, where its name is one.
fn add_label(
    alloc: Global,
    labels: &mut Vec<Label>,
    name: &[u8],
    value: &[u8],
) -> Result<(), AllocError> {
    if is_label_name(name) {
        labels.push(Label {
            name: LabelName::new(alloc, name)?,
            value: Words::new(alloc, value)?,
        })?;
    }
    Ok(())
}

/// Adds a family without a sample, where its name is one.
fn add_family(
    alloc: Global,
    families: &mut Vec<Family>,
    name: &[u8],
    help: &[u8],
    kind: MetricKind,
) -> Result<(), AllocError> {
    if is_metric_name(name) {
        families.push(Family {
            name: MetricName::new(alloc, name)?,
            help: Words::new(alloc, help)?,
            kind,
            samples: Vec::new(alloc),
        })?;
    }
    Ok(())
}

/// Adds a sample to the last family.
fn add_sample(
    families: &mut Vec<Family>,
    part: SamplePart,
    labels: Vec<Label>,
    number: Number,
) -> Result<(), AllocError> {
    if let Some(family) = families.last_mut() {
        family.samples.push(Sample {
            part,
            labels,
            number,
        })?;
    }
    Ok(())
}

fn add_requests(
    alloc: Global,
    families: &mut Vec<Family>,
    code: &[u8],
    count: u64,
) -> Result<(), AllocError> {
    let mut labels = Vec::new(alloc);
    add_label(alloc, &mut labels, b"method", b"post")?;
    add_label(alloc, &mut labels, b"code", code)?;
    add_sample(families, SamplePart::Itself, labels, Number::Whole(count))
}

fn add_file(alloc: Global, families: &mut Vec<Family>) -> Result<(), AllocError> {
    add_family(
        alloc,
        families,
        b"file_seconds",
        b"A \"path\" \\ and\nmore.",
        MetricKind::Gauge,
    )?;
    let mut labels = Vec::new(alloc);
    add_label(alloc, &mut labels, b"path", b"C:\\DIR\\FILE.TXT")?;
    add_label(
        alloc,
        &mut labels,
        b"error",
        b"Cannot find file:\n\"FILE.TXT\"",
    )?;
    add_sample(
        families,
        SamplePart::Itself,
        labels,
        Number::Micros(12_000_345),
    )
}

fn add_bucket(
    alloc: Global,
    families: &mut Vec<Family>,
    bound: &[u8],
    count: u64,
) -> Result<(), AllocError> {
    let mut labels = Vec::new(alloc);
    add_label(alloc, &mut labels, b"le", bound)?;
    add_sample(families, SamplePart::Bucket, labels, Number::Whole(count))
}

fn add_histogram(alloc: Global, families: &mut Vec<Family>) -> Result<(), AllocError> {
    add_family(
        alloc,
        families,
        b"took_seconds",
        b"How long it took.",
        MetricKind::Histogram,
    )?;
    add_bucket(alloc, families, b"0.05", 24_054)?;
    add_bucket(alloc, families, b"+Inf", 144_320)?;
    add_sample(
        families,
        SamplePart::Sum,
        Vec::new(alloc),
        Number::Nanos(53_423_000_000_001),
    )?;
    add_sample(
        families,
        SamplePart::Count,
        Vec::new(alloc),
        Number::Whole(144_320),
    )
}

/// Whether the text of these families is the one that was written by hand.
fn is_as_expected(alloc: Global) -> Result<bool, AllocError> {
    let mut families = Vec::new(alloc);
    add_family(
        alloc,
        &mut families,
        b"http_requests_total",
        b"The total number of HTTP requests.",
        MetricKind::Counter,
    )?;
    add_requests(alloc, &mut families, b"200", 1027)?;
    add_requests(alloc, &mut families, b"400", 3)?;
    add_file(alloc, &mut families)?;
    add_histogram(alloc, &mut families)?;
    let text = write_metrics(alloc, families.as_slice())?;
    Ok(text.as_slice() == EXPECTED)
}

#[test]
fn the_text_is_that_of_the_format(rt: HostRuntime) -> Result<(), Fail> {
    assert!(rt; is_as_expected(rt.alloc())?);
    Ok(())
}

/// The text of a server of one layer that rendered a tile in 12 ms.
fn text_of_a_server(alloc: Global) -> Result<Vec<u8>, AllocError> {
    let mut layers = Vec::new(alloc);
    layers.push(Words::new(alloc, b"roads")?)?;
    let meters = Meters::new(alloc, 1, layers.as_slice())?;
    if let Some(worker) = meters.worker(0) {
        worker.count_request(Some(0), Outcome::Miss);
        worker.begin_render();
        worker.end_render(12_000);
    }
    let levels = Levels {
        hot_metatiles: 1,
        kept_metatiles: 2,
        kept_bytes: 3,
        truncations: 4,
        jobs: 5,
    };
    let families = meters.families(alloc, &levels)?;
    write_metrics(alloc, families.as_slice())
}

/// Whether a part stands somewhere in a text.
fn has(text: &[u8], part: &[u8]) -> bool {
    for start in 0..text.len() {
        if text[start..].starts_with(part) {
            return true;
        }
    }
    false
}

#[test]
fn a_server_tells_what_it_counted(rt: HostRuntime) -> Result<(), Fail> {
    let text = text_of_a_server(rt.alloc())?;
    let text = text.as_slice();
    assert!(rt;
        has(
            text,
            b"tile_server_requests_total{layer=\"roads\",outcome=\"miss\"} 1\n"
        )
    );
    assert!(rt; has(text, b"tile_server_render_seconds_bucket{le=\"0.01\"} 0\n"));
    assert!(rt; has(text, b"tile_server_render_seconds_bucket{le=\"0.03\"} 1\n"));
    assert!(rt; has(text, b"tile_server_render_seconds_sum 0.012000\n"));
    assert!(rt; has(text, b"tile_server_jobs 5\n"));
    Ok(())
}

#[test]
fn a_server_is_well_or_says_why_not(rt: HostRuntime) -> Result<(), Fail> {
    assert!(rt; Health::of(true, true).status() == 200);
    assert!(rt; Health::of(true, false).status() == 503);
    assert!(rt; Health::of(false, true).status() == 503);
    Ok(())
}
