//! What holds of every transfer of satoshis.

ghost use Rattle.std.specs.Prelude.{◌≡◌, ◌↔◌, ◌++◌, ℕ, List, Some, Ok, length, map};
ghost use Rattle.ox_block.specs.declared.block.Tx.{Tx};
ghost use Rattle.ox_rules.specs.Deal.{all_parts, deal};
ghost use Rattle.ox_rules.specs.Moves.{MovesInOrder};
ghost use Rattle.ox_rules.specs.Outputs.{Outputs};
ghost use Rattle.ox_rules.specs.Transfer.{Spent, Taken, spend, take_rows};

/// To deal a list is to cut it: the parts and the rest, one behind the other, are the list, and the
/// parts have the lengths asked for. No other cut has both.
pub fn dealing_is_cutting()
    ensures { (list lengths : List ℕ) (parts : List (List ℕ)) (rest : List ℕ)
        → (deal list lengths ≡ Some (parts, rest))
        ↔ ((all_parts parts ++ rest ≡ list) × (map length parts ≡ lengths)) }
{}

/// A transaction that spends outputs gives each of its own as many of the inputs' satoshis as its
/// value says, those behind what the outputs before it get; the rest is fee, and other outpoints
/// stay (BIP draft "Ordinal Numbers", the assignment of satoshis).
pub fn spends_move_in_order()
    ensures { (height place : ℕ) (tx : Tx) (outs : Outputs) (taken : Taken) (did : Spent)
        → take_rows place 0 tx.inputs outs ≡ Ok taken → spend height place tx outs ≡ Ok did
        → MovesInOrder height tx taken did }
{}
