//! The worked cases: runs each step of each case of a folder through the top call of the program that its first word names, and prints
//! what differs from what the step's files expect. The folder is the one that the program's first word names, or else the current one.
//!
//! A case is a folder, and a step of it is a folder with the words of a command, its input and its expected output and
//! status, as files that `step.rt` names. The steps of a case have one disk for the cache, one for a feed's marks and one for an outbox,
//! which each of them finds as the one before it left them. What goes over a link is the step's input and its output.
//! Promises: none that a clause says; it is a test whose cases are data.
//! Stands on tile_command, feed_words, compose_words, twin_words and link_words, and on the memory forms of their streams, their source,
//! their disks and their clock.
#![tactic(auto)]

mod acknowledged;
mod composing;
mod disk_fake;
mod disks;
mod fakes;
mod faults;
mod feeding;
mod files;
mod folders;
mod giving;
mod linking;
mod moments;
mod run;
mod source_fake;
mod step;
mod stops;
mod tally;
mod top_calls;
mod twinning;

use disks::Contents;
use std::fs::File;
use std::io::Print;
use std::process::ExitCode;
use std::rt::{Env, Files};
use std::{env, io};
use step::{Ran, run_step};
use tally::Tally;

/// The disks that the first step of a case finds: those that the case's files have, or else empty ones.
fn first_of<R: Files<File = File> + AllocGlobal>(rt: &R, inside: &str) -> io::Result<Contents> {
    let disk = format!(in rt.alloc(); "{inside}/disk")?;
    let marks = format!(in rt.alloc(); "{inside}/marks")?;
    let outbox = format!(in rt.alloc(); "{inside}/outbox")?;
    Ok(Contents {
        cache: folders::bytes_or_none(rt, disk.as_str())?,
        marks: folders::bytes_or_none(rt, marks.as_str())?,
        outbox: folders::bytes_or_none(rt, outbox.as_str())?,
    })
}

/// Runs the steps of a case in the order of their names, prints the line of each that differs, and counts them.
fn run_case<R: Files<File = File> + Print + AllocGlobal + Clone + Drop>(
    rt: &R,
    folder: &str,
    case: &str,
) -> io::Result<Tally> {
    let mut tally = Tally::new();
    let inside = format!(in rt.alloc(); "{folder}/{case}")?;
    let mut contents = first_of(rt, inside.as_str())?;
    for step in folders::names_in(rt, inside.as_str())? {
        let Ran { difference, left } = run_step(rt, inside.as_str(), step.as_str(), contents)?;
        tally.count(difference.is_none());
        if let Some(difference) = difference {
            println!(rt; "{case}/{step}: {difference}")?;
        }
        contents = left;
    }
    println!(rt; "{case}: {tally}")?;
    Ok(tally)
}

/// Runs all cases of a folder in the order of their names.
fn run_all<R: Files<File = File> + Print + AllocGlobal + Clone + Drop>(
    rt: &R,
    folder: &str,
) -> io::Result<Tally> {
    let mut all = Tally::new();
    for case in folders::names_in(rt, folder)? {
        all.add(run_case(rt, folder, case.as_str())?);
    }
    println!(rt; "all: {all}")?;
    Ok(all)
}

/// Runs the cases of the folder that the first word names, or of the current one.
fn run_asked<R: Files<File = File> + Env + Print + AllocGlobal + Clone + Drop>(
    rt: &R,
) -> io::Result<Tally> {
    match env::args(rt)?.nth(1) {
        Some(folder) => run_all(rt, folder.as_str()),
        None => run_all(rt, "."),
    }
}

fn main(rt: HostRuntime) -> ExitCode {
    match run_asked(&rt) {
        Ok(all) if all.is_whole() => ExitCode::from(0),
        Ok(_) => ExitCode::from(1),
        Err(error) => {
            let _ = eprintln!(&rt; "the cases can't be read: {error}");
            ExitCode::from(2)
        }
    }
}
