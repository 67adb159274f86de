//! What holds of blocks and runes, whatever the block.

ghost use Rattle.std.specs.Prelude.{◌≡◌, ℕ, List, []};
ghost use Rattle.ox_block.specs.declared.block.Tx.{Tx};
ghost use Rattle.ox_etching.specs.declared.spot.Spot.{Spot};
ghost use Rattle.ox_ledger.specs.Block.{StaysBalanced};
ghost use Rattle.ox_ledger.specs.GoOn.{RunesGoOn};
ghost use Rattle.ox_ledger.specs.Leaves.{LeavesAt, LeavesLast};
ghost use Rattle.ox_ledger.specs.Part.{LeadsBothWays};
ghost use Rattle.ox_ledger.specs.Runes.{Runes};
ghost use Rattle.ox_ledger.specs.Turn.{TurnsAdd};
ghost use Rattle.ox_rules.specs.declared.moved.MovedTx.{MovedTx};
ghost use Rattle.ox_rules.specs.declared.rows.OutRow.{OutRow};
ghost use Rattle.ox_sat.specs.declared.profiles.Profile.{Profile};

/// Two states of runes have one part: what of a change between them is about runes. With either
/// state it gives the other, where the later one's runes begin with those of the earlier one, but
/// for mints and burned, and nothing is due.
pub fn parts_lead_both_ways()
    ensures { LeadsBothWays }
{}

/// A transaction changes how much there is of a rune, with outputs, due to the coinbase's and
/// burned together, by its open mint's amount and its etching's premine, and by nothing else. The
/// mints of a rune grow by one exactly with the former. This is so in a balanced state in which,
/// from the height on at which runes start, no rune has the id of the transaction's place.
pub fn turns_add_mint_and_premine()
    ensures { TurnsAdd }
{}

/// After a transaction other than the coinbase each of its outputs holds what was dealt to it, what
/// it spent holds nothing, and no other outpoint changes; a coinbase changes none before its
/// block's end. At that end each of its outputs holds what was dealt to it when the block began,
/// where nothing was due before, and no other outpoint changes (Runes specification,
/// "Transferring").
pub fn turns_leave_outpoints()
    ensures turn { (at : Spot) (tx : Tx) (spent : List OutRow) (state : Runes)
        → LeavesAt at tx spent state }
    ensures block { (p : Profile) (height : ℕ) (coinbase : Tx) (txs : List Tx) (did : MovedTx)
        (moved : List MovedTx) (state : Runes) → state.due ≡ []
        → LeavesLast p height coinbase txs did moved state }
{}

/// What holds of runes: ids and names are distinct, numbers are within their bounds, no output has
/// an empty list, and what there is of each rune is its premine and what its mints gave. It holds
/// of a chain without a block, still after a transaction and still after a block: where, from the
/// height on at which runes start, no rune has the id of the transaction's place, and none is of
/// the block's height. A block leaves nothing due.
pub fn runes_stay_balanced()
    ensures { StaysBalanced }
{}

/// Runes go on over a transaction, over the end of a block and over whole blocks: those that there
/// were stay in their places, as they were but for mints and what is burned.
pub fn runes_go_on()
    ensures { RunesGoOn }
{}
