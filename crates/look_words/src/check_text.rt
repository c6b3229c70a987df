//! The text of a check.
ghost use Rattle.std.specs.Prelude.{◌≡◌, ◌+◌, ◌≤◌, ◌++◌, decimal, length};
ghost use Rattle.arrayvec.specs.ArrayVec.{array_vec_len};
ghost use Rattle.look_words.specs.Texts.{cache_text, files_text, kept_bytes};

use arrayvec::ArrayVec;
use cabinet::Kept;
use cabinet_records::Restored;
use catalog::Catalogue;
use exact_ratio::Words;
use tile_requests::{add, add_number};

/// The bytes of what is kept.
fn kept_bytes(kept: &[Kept]) -> u64
    requires { length kept.now ≤ 1048576 }
    ensures { result ≡ kept_bytes kept.now }
{
    let mut bytes: u64 = 0;
    for one in kept {
        bytes += u64::from(one.length);
    }
    bytes
}

/// Adds a label of at most 30 bytes and a number.
pub(crate) fn add_numbered(text: &mut ArrayVec<u8, 1024>, label: &[u8], number: u64)
    requires label { length label.now ≤ 30 }
    requires room { array_vec_len text.old + 50 ≤ 1024 }
    ensures items { text.new.items ≡ text.old.items ++ label.now ++ decimal number }
    ensures len { array_vec_len text.new ≤ array_vec_len text.old + 50 }
{
    add(text, label);
    add_number(text, number);
}

/// The lines of the catalogue and of the capabilities document, of which this was read.
#[tactic(auto, unfolding(crate::specs::Texts::files_text))]
fn files_text(layers: u64, grids: u64, document: u64) -> ArrayVec<u8, 1024>
    ensures items { result.items ≡ files_text layers grids document }
    ensures short { array_vec_len result ≤ 200 }
{
    let mut text = ArrayVec::new();
    add_numbered(&mut text, b"catalogue ok: ", layers);
    add_numbered(&mut text, b" layers, ", grids);
    add_numbered(&mut text, b" grids\ncapabilities ok: ", document);
    add(&mut text, b" bytes\n");
    text
}

/// The line of a cache that holds this.
#[tactic(auto, unfolding(crate::specs::Texts::cache_text))]
fn cache_text(metatiles: u64, bytes: u64, cuts: u64) -> ArrayVec<u8, 1024>
    ensures { result.items ≡ cache_text metatiles bytes cuts }
{
    let mut text = ArrayVec::new();
    add_numbered(&mut text, b"cache ok: ", metatiles);
    add_numbered(&mut text, b" metatiles, ", bytes);
    add_numbered(&mut text, b" bytes, ", cuts);
    add(&mut text, b" truncations in force\n");
    text
}

/// The lines of a catalogue and of a capabilities document.
pub(crate) fn files_lines(catalogue: &Catalogue, document: &Words) -> ArrayVec<u8, 1024>
    ensures items { result.items ≡ files_text (length catalogue.now.layers) (length catalogue.now.grids) (length document.now) }
    ensures short { array_vec_len result ≤ 200 }
{
    files_text(
        catalogue.layers.len() as u64,
        catalogue.grids.len() as u64,
        document.bytes().len() as u64,
    )
}

/// The line of a cache whose records were restored to this.
pub(crate) fn cache_line(restored: &Restored) -> ArrayVec<u8, 1024>
    requires { length restored.now.kept.items ≤ 1048576 }
    ensures { result.items ≡ cache_text (length restored.now.kept.items) (kept_bytes restored.now.kept.items) (length restored.now.cuts.book.cuts) }
{
    let bytes = kept_bytes(restored.kept.as_slice());
    cache_text(
        restored.kept.len() as u64,
        bytes,
        u64::from(restored.cuts.count()),
    )
}
