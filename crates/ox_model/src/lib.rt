//! What the index is, in definitions, and the plain types that they and the crates above share.
#![tactic(auto)]

mod about;
mod audit;
mod change;
mod view;

ghost use Rattle.std.specs.Prelude.{◌≡◌, ℕ, ℤ, ◌+◌, ◌-◌, ◌<◌, List, [], ◌∷◌, ◌++◌, length, take};
ghost use Rattle.std.specs.Prelude.{slice_get, All, Some, Ok};
ghost use Rattle.ox_feed.specs.Feed.{FeedLine};
ghost use Rattle.ox_feed.specs.declared.command.Command.{Command};
ghost use Rattle.ox_sat.specs.Profiles.{IsProfile};
ghost use Rattle.ox_sat.specs.declared.profiles.Profile.{Profile};
ghost use Rattle.ox_inscribe.specs.Signed.{number_at};
ghost use Rattle.ox_inscribe.specs.declared.row.InsRow.{InsRow};
ghost use Rattle.ox_ledger.specs.Part.{Continues};
ghost use Rattle.ox_model.specs.Audit.{audit_of};
ghost use Rattle.ox_model.specs.Chain.{index_of};
ghost use Rattle.ox_model.specs.Change.{IsChange, redone, undone};
ghost use Rattle.ox_model.specs.Index.{Index};
ghost use Rattle.ox_model.specs.Machine.{Machine, stack_of};
ghost use Rattle.ox_model.specs.Replies.{after, after_commands, after_commands_on, after_on};
ghost use Rattle.ox_model.specs.Replies.{replies, replies_on};
ghost use Rattle.ox_model.specs.Sound.{IsSound, SoundHeights, SoundInscriptions, SoundOutputs};
ghost use Rattle.ox_model.specs.Sound.{SoundSats};
ghost use Rattle.ox_model.specs.Stack.{Stack};
ghost use Rattle.ox_model.specs.declared.audit.RuneAudit.{RuneAudit};
ghost use Rattle.ox_model.specs.declared.change.Change.{Change as IndexChange};

pub use about::About;
pub use audit::{Audit, RuneAudit};
pub use change::Change;
pub use ox_envelope::InsId;
pub use ox_etching::RuneRow;
pub use ox_inscribe::InsRow;
pub use ox_ledger::RunePart;
pub use ox_rules::{
    Memory, Moved, MovedTx, MovedTxs, OutRow, OutTable, Place, Refusal, SpentRows, TableRows,
    Unplaced, hash_text, outpoint_text,
};
pub use ox_runestone::RuneId;
pub use view::View;

/// The index of every chain is sound. By any profile each satoshi that its blocks could claim is in
/// one place, an output or the lost ones, and no other satoshi is (BIP draft "Ordinal Numbers");
/// outputs and inscriptions come from its blocks, and inscriptions are on satoshis that these could
/// claim. By a profile of the table it is sound as a whole: of each rune, too, what outputs hold
/// and what was burned is its premine and what its mints gave.
pub fn chains_are_sound()
    ensures heights { (p : Profile) (blocks : List (List ℕ)) → SoundHeights p (index_of p blocks) }
    ensures outputs { (p : Profile) (blocks : List (List ℕ)) → SoundOutputs (index_of p blocks) }
    ensures satoshis { (p : Profile) (blocks : List (List ℕ)) → SoundSats p (index_of p blocks) }
    ensures inscriptions { (p : Profile) (blocks : List (List ℕ))
        → SoundInscriptions p (index_of p blocks) }
    ensures whole { (p : Profile) (blocks : List (List ℕ)) → IsProfile p
        → IsSound p (index_of p blocks) }
{}

/// What is numbered stays. Every inscription of a chain has its sequence and its signed number in
/// each longer chain that begins with it. So every rune has its number, and no more of it changes
/// than its mints and what was burned.
pub fn numbers_stay()
    ensures inscriptions { (p : Profile) (blocks more : List (List ℕ)) (sequence : ℕ)
        (row : InsRow)
        → slice_get (index_of p blocks).inscriptions sequence ≡ Some row
        → slice_get (index_of p (blocks ++ more)).inscriptions sequence ≡ Some row }
    ensures signed { (p : Profile) (blocks more : List (List ℕ)) (sequence : ℕ) (number : ℤ)
        → number_at p.jubilee (index_of p blocks).inscriptions sequence ≡ Some number
        → number_at p.jubilee (index_of p (blocks ++ more)).inscriptions sequence ≡ Some number }
    ensures runes { (p : Profile) (blocks more : List (List ℕ))
        → Continues (index_of p blocks).runes (index_of p (blocks ++ more)).runes }
{}

/// An audit balances: of a sound index, what is lost and what outputs hold is what could be
/// claimed, and of each rune what is held and what was burned is its premine and what was minted.
pub fn audits_balance()
    ensures satoshis { (p : Profile) (index : Index) → IsSound p index
        → (audit_of p index).claimable ≡ (audit_of p index).lost + (audit_of p index).outputs }
    ensures runes { (p : Profile) (index : Index) → IsSound p index
        → All (λ (rune : RuneAudit). rune.held + rune.burned ≡ rune.premine + rune.minted)
        (audit_of p index).runes }
{}

/// A machine's answers to lines, each by fresh indexing of its blocks then, are those of its stack,
/// and so is where the lines lead: each index of that stack is fresh indexing of the chain that the
/// lines chose. Commands lead both alike too.
pub fn stacks_follow_chains()
    ensures answers { (machine : Machine) (lines : List FeedLine)
        → replies machine lines ≡ replies_on (stack_of machine) lines }
    ensures leads { (machine : Machine) (lines : List FeedLine)
        → stack_of (after machine lines) ≡ after_on (stack_of machine) lines }
    ensures commands { (machine : Machine) (commands : List Command)
        → stack_of (after_commands machine commands)
        ≡ after_commands_on (stack_of machine) commands }
{}

/// The older indexes of a machine's stack are one for each kept block: the first is that of the
/// chain without its last block, the second that without its last two, and so on.
pub fn older_indexes_are_of_fewer_blocks()
    ensures many { (machine : Machine) → length (stack_of machine).older ≡ machine.kept }
    ensures each { (machine : Machine) (j : ℕ) → j < machine.kept
        → slice_get (stack_of machine).older j
        ≡ Some (index_of machine.profile (take (length machine.blocks - (j + 1)) machine.blocks)) }
{}

/// Two indexes of which the second has one block more, lost satoshis and inscriptions behind those
/// of the first, and runes that begin with those of the first but for mints and burned, have one
/// change. With either of them it gives the other.
pub fn changes_lead_both_ways()
    ensures some { (before after : Index) (hash lost : List ℕ) (inscriptions : List InsRow)
        → after.hashes ≡ before.hashes ++ hash ∷ [] → after.lost ≡ before.lost ++ lost
        → after.inscriptions ≡ before.inscriptions ++ inscriptions
        → Continues before.runes after.runes
        → (change : IndexChange) × IsChange before after change }
    ensures one { (before after : Index) (c d : IndexChange)
        → IsChange before after c → IsChange before after d → c ≡ d }
    ensures back { (before after : Index) (change : IndexChange)
        → IsChange before after change → undone after change ≡ before }
    ensures forth { (before after : Index) (change : IndexChange)
        → IsChange before after change → redone before change ≡ after }
{}

/// Lines that come later go on from where the earlier ones lead, as in runs one after the other
/// over the same files.
pub fn runs_join()
    ensures { (machine : Machine) (x y : List FeedLine)
        → after machine (x ++ y) ≡ after (after machine x) y }
{}
