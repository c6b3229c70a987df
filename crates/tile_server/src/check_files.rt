//! What `check` tells of the files of a folder beside its top call: the cells, and quotas that are never exceeded.
use crate::{CATALOGUE, CELLS, SOURCE_CODE};
use catalog::Catalogue;
use command_setup::CATALOGUE_LIMIT;
use config_text::read_catalogue;
use http_wire::{FileSource, read_all};
use program_files::cells_fault;
use std::fs::File;
use std::io::Eprint;
use std::process::ExitCode;
use std::rt::Files;

/// Whether a quota is there and is never exceeded, since no more bytes than these are ever kept.
fn is_idle(quota: Option<u64>, room: u64) -> bool {
    match quota {
        Some(bytes) => bytes >= room,
        None => false,
    }
}

/// Warns of the quotas of a catalogue that are never exceeded.
fn warn_of_idle(rt: &impl Eprint, catalogue: &Catalogue) {
    let room = catalogue.blob_bytes;
    if is_idle(catalogue.quota, room) {
        let _ = eprintln!(rt;
            "warning: catalogue: $.quota: it is never exceeded: set it below blobBytes, or leave it out"
        );
    }
    let mut place = 0;
    for layer in catalogue.layers.as_slice() {
        if is_idle(layer.quota, room) {
            let _ = eprintln!(rt;
                "warning: catalogue: $.layers[{place}].quota: it is never exceeded: set it below blobBytes, or leave it out"
            );
        }
        place = base::one_more(place);
    }
}

/// Warns of the quotas that are never exceeded, where the catalogue can be read.
pub fn warn_of_quotas(rt: &(impl Files<File = File> + Eprint + AllocGlobal)) {
    let alloc = rt.alloc();
    let Ok(text) = read_all(alloc, &mut FileSource::open(rt, CATALOGUE), CATALOGUE_LIMIT) else {
        return;
    };
    if let Ok(catalogue) = read_catalogue(alloc, text.as_slice()) {
        warn_of_idle(rt, &catalogue);
    }
}

/// Tells what is wrong with the file of cells, by which each render would fail, and gives the code of a check that came to this one, and that found
/// everything else in order or didn't.
pub fn tell_cells(
    rt: &(impl Files<File = File> + Eprint),
    is_passed: bool,
    code: ExitCode,
) -> ExitCode {
    let Some(fault) = cells_fault(rt, CELLS) else {
        return code;
    };
    let _ = eprintln!(rt; "bad cells");
    let _ = eprintln!(rt; "{CELLS}: {fault}");
    if is_passed {
        ExitCode::from(SOURCE_CODE)
    } else {
        code
    }
}
