//! What holds of every allocation.

ghost use Rattle.ox_allocation.specs.Asked.{EdictsGive, EdictsToAllAddUp};
ghost use Rattle.ox_allocation.specs.Laws.{NothingIsLostOrMade, ReturnsGetNothing, SplitsAreEven};

/// Of each rune, all that outputs are given and all that is burned is together what there was,
/// whatever the edicts say.
pub fn nothing_is_lost_or_made()
    ensures { NothingIsLostOrMade }
{}

/// The parts of a rune that is split evenly differ by at most one, the larger ones are in front,
/// and together they are all that there was.
pub fn splits_are_even()
    ensures { SplitsAreEven }
{}

/// An output that begins with OP_RETURN gets nothing.
pub fn returns_get_nothing()
    ensures { ReturnsGetNothing }
{}

/// An edict that names an output gives it so much as it says or what is left, all of it for 0, and
/// later edicts deal what that leaves (Runes specification, "Edicts").
pub fn edicts_take_what_is_left()
    ensures { EdictsGive }
{}

/// Where there is enough of a rune for all, edicts to all outputs give each that can hold runes the
/// sum of what they say: so much is owed, and dealt once.
pub fn edicts_to_all_add_up()
    ensures { EdictsToAllAddUp }
{}
