//! What requests are read by and responses are spelt by, made once.
use png_text::CrcTables;
use std::alloc::{AllocError, Global};
use wmts_rest::RestTable;

/// What is made once and lent to each request and each response.
#[derive(Drop)]
pub struct Tables {
    /// How paths of tiles are read.
    pub rest: RestTable,
    /// How the checks of pictures are reckoned.
    pub crc: CrcTables,
}

impl Tables {
    /// Makes all tables. `AllocError` where memory runs out.
    pub fn new(alloc: Global) -> Result<Tables, AllocError> {
        let rest = RestTable::new(alloc)?;
        let crc = CrcTables::new(alloc)?;
        Ok(Tables { rest, crc })
    }
}
