//! What the command of a step is given, as the step's files have it.
use crate::fakes::Fakes;
use crate::files::{own_often, shared_often, text};
use crate::moments::moments_in;
use crate::run::Given;
use std::fs::File;
use std::io;
use std::rt::Files;

/// The bytes that a command reads, and its words.
#[derive(Drop)]
struct Inputs {
    words: String,
    catalogue: Vec<u8>,
    capabilities: Vec<u8>,
    input: Vec<u8>,
}

/// What a command reads by the files of a step, each as often as its fakes say.
fn inputs_of<R: Files<File = File> + AllocGlobal>(
    rt: &R,
    case: &str,
    step: &str,
    fakes: &Fakes,
) -> io::Result<Inputs> {
    Ok(Inputs {
        words: text(rt, case, step, "words")?,
        catalogue: shared_often(rt, case, step, "catalogue.json", fakes.catalogue.times)?,
        capabilities: shared_often(rt, case, step, "capabilities.xml", fakes.capabilities.times)?,
        input: own_often(rt, case, step, "input", fakes.input.times)?,
    })
}

/// How the objects of a step behave; `None` where a line of its file isn't of its form.
fn fakes_of<R: Files<File = File> + AllocGlobal>(
    rt: &R,
    case: &str,
    step: &str,
) -> io::Result<Option<Fakes>> {
    let lines = text(rt, case, step, "fakes")?;
    Ok(Fakes::read(rt.alloc(), lines.as_str())?)
}

/// The moments of a step; `None` where a word of its file is no number.
fn moments_of<R: Files<File = File> + AllocGlobal>(
    rt: &R,
    case: &str,
    step: &str,
) -> io::Result<Option<Vec<u64>>> {
    let numbers = text(rt, case, step, "moments")?;
    Ok(moments_in(rt.alloc(), numbers.as_str())?)
}

/// What a command is given by the files of a step, beside these moments.
fn given_by<R: Files<File = File> + AllocGlobal>(
    rt: &R,
    case: &str,
    step: &str,
    moments: Vec<u64>,
    fakes: Fakes,
) -> io::Result<Given> {
    let Inputs {
        words,
        catalogue,
        capabilities,
        input,
    } = inputs_of(rt, case, step, &fakes)?;
    Ok(Given {
        words,
        catalogue,
        capabilities,
        input,
        moments,
        fakes,
    })
}

/// What a command is given by the files of a step; which of them isn't of its form, where one isn't.
pub fn given_of<R: Files<File = File> + AllocGlobal>(
    rt: &R,
    case: &str,
    step: &str,
) -> io::Result<Result<Given, &'static str>> {
    let Some(moments) = moments_of(rt, case, step)? else {
        return Ok(Err("its file moments has a word that is no number"));
    };
    let Some(fakes) = fakes_of(rt, case, step)? else {
        return Ok(Err("its file fakes has a line of another form"));
    };
    Ok(Ok(given_by(rt, case, step, moments, fakes)?))
}
