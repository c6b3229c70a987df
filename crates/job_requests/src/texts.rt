//! The texts that are told of a job.
ghost use Rattle.std.specs.Prelude.{◌≡◌, ◌++◌, IfOk, OnOk};
ghost use Rattle.job_requests.specs.Texts.{bool_text, kind_text, member, name_text, progress_text, state_text, status_text, submitted_text};

use exact_ratio::Words;
use job_board::{JobState, JobStatus, Progress};
use job_forms::JobKind;
use std::alloc::{AllocError, Global};
use tile_requests::push_number;

/// The number of a job that was submitted. `AllocError` where memory runs out.
pub fn submitted_text(alloc: Global, number: u64) -> Result<Words, AllocError>
    ensures { IfOk result (λ text. text ≡ submitted_text number) }
{
    let mut text = Vec::from_slice(alloc, b"{\"job\":")?;
    push_number(&mut text, number)?;
    text.extend_from_slice(b"}\n")?;
    Ok(Words::of(text))
}

fn bool_text(value: bool) -> &'static [u8]
    ensures { result.now ≡ bool_text value }
{
    if value { b"true" } else { b"false" }
}

/// Adds a member with a number.
#[tactic(auto, unfolding(crate::specs::Texts::member))]
fn add_member(text: &mut Vec<u8>, label: &[u8], number: u64) -> Result<(), AllocError>
    ensures { OnOk result (text.new.items ≡ text.old.items ++ member label.now number) }
{
    text.extend_from_slice(label)?;
    push_number(text, number)
}

/// How far a job is: how many places it has, how many of them are claimed, done and failed, and whether it was ended early. `AllocError`
/// where memory runs out.
#[tactic(auto, unfolding(crate::specs::Texts::progress_text))]
pub fn progress_text(alloc: Global, number: u64, progress: &Progress) -> Result<Words, AllocError>
    ensures { IfOk result (λ text. text ≡ progress_text number progress.now) }
{
    let mut text = Vec::new(alloc);
    add_member(&mut text, b"{\"job\":", number)?;
    add_member(&mut text, b",\"places\":", progress.places)?;
    add_member(&mut text, b",\"claimed\":", progress.claimed)?;
    add_member(&mut text, b",\"done\":", progress.done)?;
    add_member(&mut text, b",\"failed\":", progress.failed)?;
    text.extend_from_slice(b",\"cancelled\":")?;
    text.extend_from_slice(bool_text(progress.cancelled))?;
    text.extend_from_slice(b"}\n")?;
    Ok(Words::of(text))
}

/// The name of what a job does, as in its text.
fn kind_text(kind: JobKind) -> &'static [u8]
    ensures { result.now ≡ kind_text kind }
{
    match kind {
        JobKind::Seed => b"seed",
        JobKind::Reseed => b"reseed",
        JobKind::Truncate => b"truncate",
    }
}

/// The name of where a job stands.
fn state_text(state: JobState) -> &'static [u8]
    ensures { result.now ≡ state_text state }
{
    match state {
        JobState::Waiting => b"waiting",
        JobState::Running => b"running",
        JobState::Done => b"done",
        JobState::Cancelled => b"cancelled",
    }
}

/// Adds a member with a name, which has no character to escape.
#[tactic(auto, unfolding(crate::specs::Texts::name_text))]
fn add_name(text: &mut Vec<u8>, label: &[u8], name: &[u8]) -> Result<(), AllocError>
    ensures { OnOk result (text.new.items ≡ text.old.items ++ name_text label.now name.now) }
{
    text.extend_from_slice(label)?;
    text.extend_from_slice(name)
}

/// Where a job stands, in full, as a line: what it does, its state, and its numbers. `AllocError` where memory runs out.
#[tactic(auto, unfolding(crate::specs::Texts::status_text))]
pub fn status_text(alloc: Global, number: u64, status: &JobStatus) -> Result<Words, AllocError>
    ensures { IfOk result (λ text. text ≡ status_text number status.now) }
{
    let mut text = Vec::new(alloc);
    add_member(&mut text, b"{\"job\":", number)?;
    add_name(&mut text, b",\"type\":\"", kind_text(status.kind))?;
    add_name(&mut text, b"\",\"state\":\"", state_text(status.state))?;
    add_member(&mut text, b"\",\"places\":", status.progress.places)?;
    add_member(&mut text, b",\"claimed\":", status.progress.claimed)?;
    add_member(&mut text, b",\"done\":", status.progress.done)?;
    add_member(&mut text, b",\"failed\":", status.progress.failed)?;
    add_member(&mut text, b",\"unkept\":", status.progress.unkept)?;
    text.extend_from_slice(b",\"cancelled\":")?;
    text.extend_from_slice(bool_text(status.progress.cancelled))?;
    text.extend_from_slice(b"}\n")?;
    Ok(Words::of(text))
}

/// Adds the line that tells of a job in full.
pub(crate) fn add_status(
    alloc: Global,
    text: &mut Vec<u8>,
    number: u64,
    status: &JobStatus,
) -> Result<(), AllocError>
    ensures { OnOk result (text.new.items ≡ text.old.items ++ status_text number status.now) }
{
    let line = status_text(alloc, number, status)?;
    text.extend_from_slice(line.bytes())
}
