//! An index as its readers see it.

ghost use Rattle.std.specs.Prelude.{◌≡◌, ◌<◌, Some, length, slice_get, option_copied, option_map};
ghost use Rattle.std.specs.Prelude.{IfOk};
ghost use Rattle.std.specs.FinMap as map;
ghost use Rattle.ox_sat.specs.Profiles.{IsProfile};
ghost use Rattle.ox_sat.specs.declared.profiles.Profile.{Profile};
ghost use Rattle.ox_inscribe.specs.Inscriptions.{children, find, next_on, on};
ghost use Rattle.ox_inscribe.specs.Signed.{number_at};
ghost use Rattle.ox_ledger.specs.Runes.{balances_at};
ghost use Rattle.ox_model.specs.Audit.{audit_of};
ghost use Rattle.ox_model.specs.Found.{by_id, by_name, held_of};
ghost use Rattle.ox_model.specs.Index.{Index};
ghost use Rattle.ox_model.specs.Where.{where_is};
ghost use Rattle.ox_model.specs.Sound.{IsSound};

use crate::audit::Audit;
use ox_block::OutPoint;
use ox_envelope::InsId;
use ox_etching::RuneRow;
use ox_inscribe::InsRow;
use ox_rules::{Memory, OutRow, Place};
use ox_runestone::RuneId;
use ox_sat::Profile;

/// An index that is sound for its profile, which is one of the table, to be read. Nothing here but
/// `audit` takes memory.
pub trait View {
    /// The profile by which the chain counts.
    ghost chain: { Self → Profile };

    /// The index.
    ghost index: { Self → Index };

    /// The profile by which the chain counts.
    fn profile(&self) -> &Profile
        ensures { result.now ≡ chain self.now };

    /// How many blocks there are.
    fn blocks(&self) -> u32
        ensures { result ≡ length (index self.now).hashes };

    /// The hash of the block at a height, in serialized order; `None` exactly where the height
    /// isn't below `blocks`.
    fn hash_of(&self, height: u32) -> Option<&[u8; 32]>
        ensures { option_copied result ≡ slice_get (index self.now).hashes height };

    /// The unspent output at an outpoint, if there is one.
    fn output(&self, at: &OutPoint) -> Option<&OutRow>
        ensures { option_copied result ≡ map.get (index self.now).outs at.now };

    /// How many satoshis are lost.
    fn lost(&self) -> u64
        ensures { result ≡ length (index self.now).lost };

    /// Where a satoshi is: in which output and at which place of it, or at which place of the lost
    /// ones; `None` exactly where it is nowhere.
    fn locate(&self, sat: u64) -> Option<Place>
        ensures { result ≡ where_is (index self.now) sat };

    /// How many inscriptions there are.
    fn inscriptions(&self) -> u32
        ensures { result ≡ length (index self.now).inscriptions };

    /// The inscription with a sequence, which is its place among all, from 0.
    fn inscription(&self, n: u32) -> &InsRow
        requires { n < length (index self.now).inscriptions }
        ensures { slice_get (index self.now).inscriptions n ≡ Some result.now };

    /// The signed number of the inscription with a sequence: of a cursed one, which has a mark and
    /// was revealed below the profile's jubilee, -1 less the cursed ones before it; of any other
    /// how many others stand before it.
    fn number(&self, n: u32) -> i64
        requires { n < length (index self.now).inscriptions }
        ensures { number_at (chain self.now).jubilee (index self.now).inscriptions n
            ≡ Some result };

    /// The sequence of the first inscription with an id; `None` exactly where there is none.
    fn find(&self, id: &InsId) -> Option<u32>
        ensures { result ≡ find (index self.now).inscriptions id.now };

    /// The sequences of the inscriptions on a satoshi, rising.
    fn on(&self, sat: u64) -> &[u32]
        ensures { result.now ≡ on (index self.now).inscriptions sat };

    /// The least satoshi from a number up that bears an inscription, and the sequences of those on
    /// it, rising; `None` exactly where there is none.
    fn next_on(&self, sat: u64) -> Option<(u64, &[u32])>
        ensures { option_map (λ found. (found.0, found.1.now)) result
            ≡ next_on (index self.now).inscriptions sat };

    /// The sequences of the inscriptions among whose parents the id of the one with a sequence
    /// stands, rising.
    fn children(&self, of: u32) -> &[u32]
        requires { of < length (index self.now).inscriptions }
        ensures { result.now ≡ children (index self.now).inscriptions of };

    /// The runes of an output, ids rising; none where there is no such output.
    fn balance(&self, at: &OutPoint) -> &[(RuneId, u128)]
        ensures { result.now ≡ balances_at (index self.now).bal at.now };

    /// How many runes there are.
    fn runes(&self) -> u32
        ensures { result ≡ length (index self.now).runes };

    /// The rune with a number, by etching.
    fn rune(&self, n: u32) -> &RuneRow
        requires { n < length (index self.now).runes }
        ensures { slice_get (index self.now).runes n ≡ Some result.now };

    /// The number of the rune with a name; `None` exactly where there is none.
    fn by_name(&self, name: u128) -> Option<u32>
        ensures { result ≡ by_name (index self.now).runes name };

    /// The number of the rune with an id; `None` exactly where there is none.
    fn by_id(&self, id: RuneId) -> Option<u32>
        ensures { result ≡ by_id (index self.now).runes id };

    /// How much all outputs together hold of the rune with a number.
    fn held(&self, n: u32) -> u128
        requires { n < length (index self.now).runes }
        ensures { option_map (held_of (index self.now)) (slice_get (index self.now).runes n)
            ≡ Some result };

    /// Where all satoshis and runes are. `Memory` where there is none for the runes.
    fn audit(&self) -> Result<Audit, Memory>
        ensures { IfOk result
            (λ audit. audit ≡ audit_of (chain self.now) (index self.now)) };

    /// The profile is one of the table.
    ghost known: { (view : Self) → IsProfile (chain view) };

    /// The index is sound.
    ghost sound: { (view : Self) → IsSound (chain view) (index view) };
}
