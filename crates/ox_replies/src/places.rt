//! Outputs and inscriptions tell the same places.

ghost use Rattle.std.specs.Prelude.{◌≡◌, ◌↔◌, ℕ, Contains, Some, slice_get};
ghost use Rattle.std.specs.FinMap.{get};
ghost use Rattle.std.specs.List.{flat_map};
ghost use Rattle.ox_block.specs.declared.block.OutPoint.{OutPoint};
ghost use Rattle.ox_sat.specs.declared.profiles.Profile.{Profile};
ghost use Rattle.ox_rules.specs.declared.place.Place.TheVariants.{Out};
ghost use Rattle.ox_rules.specs.declared.rows.OutRow.{OutRow};
ghost use Rattle.ox_inscribe.specs.Inscriptions.{on};
ghost use Rattle.ox_inscribe.specs.declared.row.InsRow.{InsRow};
ghost use Rattle.ox_model.specs.Index.{Index};
ghost use Rattle.ox_model.specs.Sound.{IsSound};
ghost use Rattle.ox_model.specs.Where.{where_is};

/// An inscription of a sound index is told at an unspent output exactly where the place that is
/// told of its satoshi is in that output.
pub fn outputs_and_inscriptions_agree()
    ensures { (p : Profile) (index : Index) (at : OutPoint) (row : OutRow) (n : ℕ) (one : InsRow)
        (sat : ℕ) → IsSound p index → get index.outs at ≡ Some row
        → slice_get index.inscriptions n ≡ Some one → one.sat ≡ Some sat
        → Contains (flat_map (on index.inscriptions) row.sats) n
        ↔ ((offset : ℕ) × (where_is index sat ≡ Some (Out at offset))) }
{}
