//! Files of cells.
ghost use Rattle.std.specs.Int.{from_be_bytes, w32};
ghost use Rattle.std.specs.Prelude.{IfSome, IsSome, drop, get_or, take, ℕ, ◌+◌, ◌*◌, ◌<◌, ◌≡◌, ◌≤◌, ◌^◌};
ghost use Rattle.source_render.specs.Cells.{IsGridFile};

use crate::painter::MOST;
use std::fs::File;
use std::os::unix::fs::FileExt;

/// What a file of cells begins with.
const MAGIC: [u8; 8] = *b"WGRD0001";

/// How many bytes are read at a time.
const CHUNK: usize = 4096;

/// How many cells a file has in a row, and how many rows.
#[derive(Clone, Copy)]
pub struct CellGrid {
    pub width: u32,
    pub height: u32,
}

fn number_at(head: &[u8; 16], at: usize) -> u32
    requires { at + 4 ≤ 16 }
    ensures { result ≡ from_be_bytes w32 (take 4 (drop at head.now)) }
{
    let mut bytes = [0; 4];
    bytes.copy_from_slice(&head[at..at + 4]);
    u32::from_be_bytes(bytes)
}

/// The grid of a file of this length with these first bytes; `None` where the file is of another form.
fn grid_of(head: &[u8; 16], size: u64) -> Option<CellGrid>
    ensures form { IfSome result (λ g. IsGridFile g head.now size) }
    ensures other { (g : CellGrid) → IsGridFile g head.now size → IsSome result }
{
    let begins = &head[..8] == MAGIC.as_slice();
    if !begins {
        return None;
    }
    let width = number_at(head, 8);
    let height = number_at(head, 12);
    if width < 1 || height < 1 {
        return None;
    }
    if size != 16 + u64::from(width) * u64::from(height) {
        return None;
    }
    Some(CellGrid { width, height })
}

/// Reads the grid of a file; `None` where the file can't be read or is of another form.
pub fn read_grid(file: &File) -> Option<CellGrid>
    ensures width { IfSome result (λ g. 1 ≤ g.width) }
    ensures height { IfSome result (λ g. 1 ≤ g.height) }
    ensures size { IfSome result (λ g. 16 + g.width * g.height < 2 ^ 64) }
{
    let mut head = [0; 16];
    file.read_exact_at(&mut head, 0).ok()?;
    let size = file.metadata().ok()?.len();
    grid_of(&head, size)
}

/// The part of a file that was read last.
#[derive(Drop)]
struct Chunk {
    start: u64,
    held: u64,
    bytes: [u8; CHUNK],
}

impl Chunk {
    /// The byte at a place of a file of this length; `None` where the file can't be read.
    fn byte_at(&mut self, file: &File, at: u64, size: u64) -> Option<u8>
        requires at { at < size }
        requires held { self.old.held ≤ 4096 }
        ensures held { self.new.held ≤ 4096 }
    {
        if self.held <= at.wrapping_sub(self.start) {
            let held = (size - at).min(4096);
            file.read_exact_at(&mut self.bytes[..held as usize], at)
                .ok()?;
            self.start = at;
            self.held = held;
        }
        let offset = at.wrapping_sub(self.start);
        if self.held <= offset {
            return None;
        }
        Some(self.bytes[offset as usize])
    }
}

/// Reads the cells of some columns in one row of cells into `values`; `None` where the file can't be read.
#[tactic(auto, using(crate::proofs::Cells::cell_inside))]
pub fn read_row(
    file: &File,
    grid: CellGrid,
    row: u32,
    columns: &[u32; MOST],
    count: u32,
    values: &mut [u8; MOST],
) -> Option<()>
    requires size { 16 + grid.width * grid.height < 2 ^ 64 }
    requires row { row < grid.height }
    requires count { count ≤ 4224 }
    requires columns { (i : ℕ) → i < count → get_or columns.now i 0 < grid.width }
{
    let size = 16 + u64::from(grid.width) * u64::from(grid.height);
    let first = u64::from(row) * u64::from(grid.width);
    let mut chunk = Chunk {
        start: 0,
        held: 0,
        bytes: [0; CHUNK],
    };
    for i in 0..count {
        let at = 16 + first + u64::from(columns[i as usize]);
        values[i as usize] = chunk.byte_at(file, at, size)?;
    }
    Some(())
}
