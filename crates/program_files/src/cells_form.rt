//! Whether a file is one of cells, told before a render reads it.
ghost use Rattle.std.specs.Int.{from_be_bytes, w32};
ghost use Rattle.std.specs.Prelude.{◌≡◌, ◌+◌, ◌≤◌, IfErr, IfOk, drop, take};
ghost use Rattle.source_render.specs.Cells.{IsGridFile};
ghost use Rattle.source_render.specs.declared.cell_file.CellGrid.{CellGrid};

use std::fs::File;
use std::io::ErrorKind;
use std::os::unix::fs::FileExt;
use std::rt::Files;
use std::{fmt, io};

/// How many bytes stand before the cells.
const HEAD: usize = 16;

/// Why a file is none of cells.
#[derive(Clone, Copy, PartialEq, Eq)]
pub enum CellsFault {
    /// It is shorter than what stands before the cells, or begins with other bytes.
    Form,
    /// Its rows have no cell, or it has no row.
    Empty,
    /// So many columns and rows it says that it has, and so many bytes it has.
    Length(u32, u32, u64),
    /// It can't be read, for this error of the system where it told one.
    Unread(Option<i32>),
}

/// What is wrong, and what is to be done about it.
impl fmt::Display for CellsFault {
    fn fmt<W: fmt::Write>(&self, f: &mut fmt::Formatter<W>) -> fmt::Result {
        match self {
            CellsFault::Form => f.write_str(
                "no file of cells: it has to begin with WGRD0001, the width and the height; make it anew",
            ),
            CellsFault::Empty => f.write_str("it has no cells: make it anew"),
            CellsFault::Length(columns, rows, length) => write!(
                f,
                "{columns} by {rows} cells and 16 bytes are not its {length} bytes: copy it anew, beside it, and rename it"
            ),
            CellsFault::Unread(None) => f.write_str("it can't be read: put it back, or remove it"),
            CellsFault::Unread(Some(code)) => {
                let error = io::Error::from_raw_os_error(*code);
                write!(f, "{error}: put it back, or remove it")
            }
        }
    }
}

/// The number of four bytes of the head, the most significant first.
fn number_at(head: &[u8; HEAD], at: usize) -> u32
    requires { at + 4 ≤ 16 }
    ensures { result ≡ from_be_bytes w32 (take 4 (drop at head.now)) }
{
    let mut bytes = [0; 4];
    bytes.copy_from_slice(&head[at..at + 4]);
    u32::from_be_bytes(bytes)
}

/// How many columns and rows of cells there are.
#[derive(Clone, Copy)]
struct CellCounts {
    columns: u32,
    rows: u32,
}

/// The counts of a file of cells of this length with these first bytes: exactly where a source of pictures takes it. Else why it is none.
fn counts_of(head: &[u8; HEAD], size: u64) -> Result<CellCounts, CellsFault>
    ensures form { IfOk result (λ n. IsGridFile (record { width = n.columns; height = n.rows }) head.now size) }
    ensures refused { IfErr result (λ _. (g : CellGrid) → IsGridFile g head.now size → ⊥) }
{
    let begins = &head[..8] == b"WGRD0001".as_slice();
    if !begins {
        return Err(CellsFault::Form);
    }
    let columns = number_at(head, 8);
    let rows = number_at(head, 12);
    if columns < 1 || rows < 1 {
        return Err(CellsFault::Empty);
    }
    if size != 16 + u64::from(columns) * u64::from(rows) {
        return Err(CellsFault::Length(columns, rows, size));
    }
    Ok(CellCounts { columns, rows })
}

/// Reads what stands before the cells, and gives the length of the file.
fn read_head(file: &File, head: &mut [u8; HEAD]) -> io::Result<u64> {
    let size = file.metadata()?.len();
    let held = size.min(HEAD as u64) as usize;
    file.read_exact_at(&mut head[..held], 0)?;
    Ok(size)
}

/// Why the file of this name is none of cells; `None` where it is one, or there is no such file.
pub fn cells_fault<R: Files<File = File>>(rt: &R, path: &str) -> Option<CellsFault> {
    let mut head = [0; HEAD];
    let read = match File::open(rt, path) {
        Ok(file) => read_head(&file, &mut head),
        Err(error) if error.kind() == ErrorKind::NotFound => return None,
        Err(error) => Err(error),
    };
    match read {
        Ok(size) => counts_of(&head, size).err(),
        Err(error) => Some(CellsFault::Unread(error.raw_os_error())),
    }
}
