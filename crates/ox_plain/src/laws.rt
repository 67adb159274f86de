//! What holds of every index and change.

ghost use Rattle.std.specs.Prelude.{◌↔◌, IsTrue};
ghost use Rattle.ox_model.specs.Change.{IsChange, redone, undone};
ghost use Rattle.ox_model.specs.Index.{Index as IndexOfChain};
ghost use Rattle.ox_model.specs.declared.change.Change.{Change};
ghost use Rattle.ox_plain.specs.Ends.{begins_in, ends_in};

/// A change ends in an index exactly where a test of the change against that index alone says so:
/// there it leads from the index that is had by undoing it. So it begins in one exactly where a
/// test says so, and leads to the index that is had by redoing it.
pub fn ends_are_tested()
    ensures back { (index : IndexOfChain) (change : Change)
        → IsTrue (ends_in index change) ↔ IsChange (undone index change) index change }
    ensures forth { (index : IndexOfChain) (change : Change)
        → IsTrue (begins_in index change) ↔ IsChange index (redone index change) change }
{}
