//! What the definitions of `specs/` imply of what a block reveals and of how rows are looked up.

ghost use Rattle.std.specs.Prelude.{◌≡◌, ℕ, ℤ, pos, negsuc, List, count_by, map, slice_get};
ghost use Rattle.std.specs.Prelude.{Some, Ok};
ghost use Rattle.std.specs.List.{filter_map};
ghost use Rattle.std.specs.List.Sorted.{IsPermutation, IsStrictlyIncreasing};
ghost use Rattle.ox_block.specs.declared.block.Tx.{Tx};
ghost use Rattle.ox_sat.specs.declared.profiles.Profile.{Profile};
ghost use Rattle.ox_range.specs.Numbers.{numbers_from};
ghost use Rattle.ox_rules.specs.Outputs.{Outputs};
ghost use Rattle.ox_rules.specs.Transfer.{Transferred, transfer_of};
ghost use Rattle.ox_inscribe.specs.Inscriptions.{children, next_on, numbers_where, on};
ghost use Rattle.ox_inscribe.specs.Moves.{AreMovesOf};
ghost use Rattle.ox_inscribe.specs.Numbers.{IsNextOn, bears, is_among, names};
ghost use Rattle.ox_inscribe.specs.Origins.{AllRevealed, HasParents, IsPlaced, bare, bare_rows_of};
ghost use Rattle.ox_inscribe.specs.Origins.{rows_before};
ghost use Rattle.ox_inscribe.specs.Reveal.{reveal_of};
ghost use Rattle.ox_inscribe.specs.Signed.{is_cursed, is_uncursed, number_at};
ghost use Rattle.ox_inscribe.specs.Standing.{StandsWhereSaid};
ghost use Rattle.ox_inscribe.specs.declared.row.InsRow.{InsRow};

/// What a transfer tells of each transaction behind the coinbase: its id, one row for each input,
/// their satoshis joined, and these are at least as many as its outputs take.
pub fn transfers_tell_of_transactions()
    ensures { (p : Profile) (height : ℕ) (txs : List Tx) (outs : Outputs) (after : Transferred)
        → transfer_of p height txs outs ≡ Ok after → AreMovesOf txs after.moved.txs }
{}

/// Every envelope of every transaction but the coinbase reveals one row, and no other row is new.
/// In another order, the new rows are those of the envelopes, as far as an envelope alone decides.
pub fn each_envelope_reveals_a_row()
    ensures { (p : Profile) (height : ℕ) (txs : List Tx) (outs : Outputs) (after : Transferred)
        → transfer_of p height txs outs ≡ Ok after
        → (rows : List InsRow)
        → IsPermutation (bare_rows_of height txs)
        (map bare (reveal_of rows height txs after.moved.txs)) }
{}

/// A new row is on a satoshi that its transaction's inputs held, or on none, and it is on none
/// exactly where its envelope is unbound: that has an unknown even tag, or its input no satoshi.
pub fn new_rows_are_on_their_inputs()
    ensures { (p : Profile) (height : ℕ) (txs : List Tx) (outs : Outputs) (after : Transferred)
        → transfer_of p height txs outs ≡ Ok after
        → (rows : List InsRow) → AllRevealed IsPlaced rows height txs after.moved.txs }
{}

/// A bound inscription is on the satoshi that its pointer names among all those of the inputs,
/// where the outputs take that one. Else, and without a pointer, it is on the first satoshi of its
/// own input (Ordinal Theory Handbook, "Inscriptions" and "Pointer").
pub fn rows_stand_where_said()
    ensures { (p : Profile) (height : ℕ) (txs : List Tx) (outs : Outputs) (after : Transferred)
        → transfer_of p height txs outs ≡ Ok after
        → (rows : List InsRow) → AllRevealed StandsWhereSaid rows height txs after.moved.txs }
{}

/// A new row's parents are the ids that its envelope names and whose first row before the
/// transaction stood on a satoshi of the transaction's inputs, each once, and no others.
pub fn parents_were_on_the_inputs()
    ensures { (p : Profile) (height : ℕ) (txs : List Tx) (outs : Outputs) (after : Transferred)
        → transfer_of p height txs outs ≡ Ok after
        → (rows : List InsRow)
        → AllRevealed
        (λ origin. HasParents (rows_before rows height txs after.moved.txs origin.place) origin)
        rows height txs after.moved.txs }
{}

/// The children of a row are the rows that name its id, and the rows on a satoshi are those that
/// bear it; their numbers rise. The next satoshi that bears a row is the least from a number up.
pub fn rows_are_looked_up_exactly()
    ensures children { (rows : List InsRow) (number child : ℕ) (row : InsRow)
        → slice_get rows number ≡ Some row
        → is_among child (children rows number) ≡ names row.id (slice_get rows child) }
    ensures on { (rows : List InsRow) (sat number : ℕ)
        → is_among number (on rows sat) ≡ bears sat (slice_get rows number) }
    ensures children_rise { (rows : List InsRow) (number : ℕ)
        → IsStrictlyIncreasing (children rows number) }
    ensures on_rises { (rows : List InsRow) (sat : ℕ) → IsStrictlyIncreasing (on rows sat) }
    ensures next { (rows : List InsRow) (low : ℕ) → IsNextOn rows low (next_on rows low) }
{}

/// Of signed numbers, those of the cursed rows are -1, -2, .. in their order, and those of the
/// others 0, 1, .., without a gap. So no two rows have the same one.
pub fn signed_numbers_have_no_gaps()
    ensures cursed { (jubilee : ℕ) (rows : List InsRow)
        → filter_map (number_at jubilee rows) (numbers_where (is_cursed jubilee) 0 rows)
        ≡ map negsuc (numbers_from 0 (count_by (is_cursed jubilee) rows)) }
    ensures others { (jubilee : ℕ) (rows : List InsRow)
        → filter_map (number_at jubilee rows) (numbers_where (is_uncursed jubilee) 0 rows)
        ≡ map pos (numbers_from 0 (count_by (is_uncursed jubilee) rows)) }
    ensures once { (jubilee : ℕ) (rows : List InsRow) (one other : ℕ) (number : ℤ)
        → number_at jubilee rows one ≡ Some number → number_at jubilee rows other ≡ Some number
        → one ≡ other }
{}
