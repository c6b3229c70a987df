//! Which half of a journal is in force.
ghost use Rattle.gate_journal.specs.Reading.{HasChosen};

use crate::fault::OpenFault;
use crate::half::Half;
use crate::header::Header;
use crate::reading::{half_of_headers, read_header};
use disk_model::Disk;

/// The half in force with its header, under the digest that is asked for.
pub(crate) fn choose<D: Disk>(disk: &mut D, digest: &[u8; 32]) -> Result<(Half, Header), OpenFault>
    ensures { HasChosen digest.now (D.told disk.old) (D.told disk.new) (D.state disk.old) (D.state disk.new)
        (D.faults disk.old) (D.faults disk.new) result }
{
    let first = read_header(disk, 0)?;
    let second = read_header(disk, 64)?;
    let Some((half, header)) = half_of_headers(first, second) else {
        return Err(OpenFault::NotACache);
    };
    if header.digest != *digest {
        return Err(OpenFault::CatalogueDiffers(header.digest, *digest));
    }
    Ok((half, header))
}
