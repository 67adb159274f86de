//! What the definitions say, for any bytes and any values.

ghost use Rattle.std.specs.Prelude.{◌≡◌, ℕ, ◌<◌, List, ◌++◌, All, Ok};
ghost use Rattle.ox_model.specs.Index.{Index};
ghost use Rattle.ox_model.specs.declared.change.Change.{Change};
ghost use Rattle.ox_rows.specs.Fits.{FitsSats};
ghost use Rattle.ox_rows.specs.RowFits.{FitsChange, FitsIndex, KeepsChange, KeepsIndex};
ghost use Rattle.ox_rows.specs.Reading.{sats_at};
ghost use Rattle.ox_rows.specs.Spelling.{sats};

use crate::readable::Readable;

/// What is read as satoshis are satoshis that there can be, spelled so; and those are read from
/// their spelling, whatever follows it.
pub fn satoshis_have_one_spelling()
    ensures read { (bytes numbers rest : List ℕ) → All (λ byte. byte < 256) bytes
        → sats_at bytes ≡ Ok (numbers, rest)
        → FitsSats numbers × (bytes ≡ sats numbers ++ rest) }
    ensures again { (numbers rest : List ℕ) → FitsSats numbers
        → sats_at (sats numbers ++ rest) ≡ Ok (numbers, rest) }
{}

/// What is read of the front of bytes is read so whatever follows that front: of more bytes it is
/// the same, and more of them is left.
pub fn longer_fronts_read_alike<T: Readable>()
    ensures { (bytes more rest : List ℕ) (x : T) → T.at bytes ≡ Ok (x, rest)
        → T.at (bytes ++ more) ≡ Ok (x, rest ++ more) }
{}

/// What has a spelling keeps to the form that its writer asks for. So what was read can be put.
pub fn what_fits_keeps_to_the_form()
    ensures change { (change : Change) → FitsChange change → KeepsChange change }
    ensures index { (index : Index) → FitsIndex index → KeepsIndex index }
{}
