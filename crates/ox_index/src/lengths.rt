//! How much of an index's lists counts.

ghost use Rattle.std.specs.Prelude.{◌≡◌, ◌+◌, ◌-◌, ◌<◌, ◌≤◌, ◌^◌, length};

use ox_model::Change;

/// How many hashes and lost satoshis count. Those behind them are of a block that was taken back,
/// and stay until the next command, so that they can count again without memory.
#[derive(Clone, Copy, PartialEq, Eq)]
pub struct Lengths {
    pub blocks: usize,
    pub lost: u64,
}

impl Lengths {
    /// With one block more.
    pub fn with_block(self, change: &Change) -> Lengths
        requires { (self.blocks + 1 < 2 ^ 64) × (self.lost + length change.now.lost < 2 ^ 64) }
        ensures { result
            ≡ record { blocks = self.blocks + 1; lost = self.lost + length change.now.lost } }
    {
        Lengths {
            blocks: self.blocks + 1,
            lost: self.lost + change.lost.len(),
        }
    }

    /// With one block less.
    pub fn without_block(self, change: &Change) -> Lengths
        requires { (1 ≤ self.blocks) × (length change.now.lost ≤ self.lost) }
        ensures { result
            ≡ record { blocks = self.blocks - 1; lost = self.lost - length change.now.lost } }
    {
        Lengths {
            blocks: self.blocks - 1,
            lost: self.lost - change.lost.len(),
        }
    }
}
