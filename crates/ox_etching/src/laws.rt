//! What holds of every mint.

ghost use Rattle.std.specs.Prelude.{◌↔◌, ℕ, IsSome};
ghost use Rattle.ox_etching.specs.declared.row.RuneRow.{RuneRow};
ghost use Rattle.ox_etching.specs.Mintable.{IsMintable};
ghost use Rattle.ox_etching.specs.Minted.{minted};

/// A rune can be minted exactly where it has terms, was minted fewer times than their cap, and the
/// height is at or past each start and before each end, given or counted from its etching (Runes
/// specification, "Minting").
pub fn mints_are_open()
    ensures { (row : RuneRow) (height : ℕ) → IsSome (minted row height) ↔ IsMintable row height }
{}
