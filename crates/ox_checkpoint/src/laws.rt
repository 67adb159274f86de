//! What holds of every sound index, and of what is spelled.

ghost use Rattle.std.specs.Prelude.{◌≡◌, ◌≤◌, ℕ, ◌∷◌, Some, length};
ghost use Rattle.ox_sat.specs.Profiles.{IsProfile};
ghost use Rattle.ox_sat.specs.declared.profiles.Profile.{Profile};
ghost use Rattle.ox_model.specs.Change.{IsChange};
ghost use Rattle.ox_model.specs.Ends.{AllEnd, BeginsIn};
ghost use Rattle.ox_model.specs.Index.{Index};
ghost use Rattle.ox_model.specs.Sound.{IsSound};
ghost use Rattle.ox_model.specs.Stack.{Stack};
ghost use Rattle.ox_model.specs.declared.change.Change.{Change};
ghost use Rattle.ox_rows.specs.RowFits.{FitsChange, KeepsChange, KeepsIndex};
ghost use Rattle.ox_rows.specs.RowSpelling.{change_rows};
ghost use Rattle.ox_files.specs.Body.{Body, FitsBody, body_rows, stack_in_body, stack_of};
ghost use Rattle.ox_files.specs.Payload.{payload_step, with_change};

/// A sound index keeps what its rows ask for, and so does each change between two sound ones: keys
/// rise, satoshis are in range, and no list of balances is empty. So both can be put as rows.
pub fn sound_data_can_be_put()
    ensures index { (p : Profile) (index : Index) → IsProfile p → IsSound p index
        → KeepsIndex index }
    ensures change { (p : Profile) (before after : Index) (change : Change) → IsProfile p
        → IsChange before after change → IsSound p before → IsSound p after
        → KeepsChange change }
{}

/// A body whose changes lead down from its index, and no more of them than may be kept, stands for
/// its stack where it is spelled; and a payload of 01 and a change that begins in the newest index
/// and leaves a sound one puts that in front. So what is written is read again.
pub fn what_is_spelled_stands()
    ensures body { (p : Profile) (depth : ℕ) (body : Body) → FitsBody body
        → length body.changes ≤ depth → IsSound p body.index → AllEnd p body.index body.changes
        → stack_in_body p depth (body_rows body) ≡ Some (stack_of p depth body) }
    ensures change { (stack : Stack) (change : Change) → FitsChange change
        → BeginsIn stack.profile stack.index change
        → payload_step stack (1 ∷ change_rows change) ≡ Some (with_change stack change) }
{}
