//! Rows of the index's tables.

ghost use Rattle.std.specs.Prelude.{◌≡◌, IfOk};

use ox_block::Script;
use ox_bytes::Memory;
use ox_range::Ranges;
use std::alloc::Global;

/// An unspent output.
pub struct OutRow {
    /// The output's script.
    pub script: Script,
    /// The height of the block that made it.
    pub height: u32,
    /// The satoshis that it holds, in order.
    pub sats: Ranges,
}

/// By hand, so that whoever drops a row makes one call, and proves nothing of its fields.
impl Drop for OutRow {
    fn drop(self) {
        let OutRow {
            script: _script,
            height: _height,
            sats: _sats,
        } = self;
    }
}

impl OutRow {
    /// The same row once more. `Memory` where there is none for it.
    pub fn copy(&self, alloc: Global) -> Result<OutRow, Memory>
        ensures { IfOk result (λ row. row ≡ self.now) }
    {
        Ok(OutRow {
            script: self.script.try_clone(alloc)?,
            height: self.height,
            sats: self.sats.copy(alloc)?,
        })
    }
}
