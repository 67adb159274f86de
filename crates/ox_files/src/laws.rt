//! Laws of old stores, and of the moments of lines.

ghost use Rattle.std.specs.Prelude.{◌≡◌, ◌↔◌, ℕ, suc, ◌<◌, ◌≤◌, List, ◌++◌, length, take, All, Ok};
ghost use Rattle.std.specs.List.{concat};
ghost use Rattle.ox_outside.specs.Files.{Files};
ghost use Rattle.ox_model.specs.Stack.{Stack};
ghost use Rattle.ox_files.specs.Moments.{moments};
ghost use Rattle.ox_files.specs.OldChains.{HaveChain};
ghost use Rattle.ox_files.specs.OldStands.{old_stands};

/// What files of version 1 stand for is the stack of a machine: the one that the commands of their
/// records lead to, from the empty machine of the head's profile and depth.
pub fn old_stores_follow_chains()
    ensures { (files : Files) (stack : Stack) (many : ℕ) → old_stands files ≡ Ok (stack, many)
        → HaveChain files stack many }
{}

/// With these answers to the lines that stand whole, and so much shown: whose moment has come.
pub fn moments_come_in_turn()
    // That of the line of this number, from 0, has come exactly where the line stands whole, and
    // what was shown is as long as all answers before its own.
    ensures come { (answers : List (List ℕ)) (shown : List ℕ) (line : ℕ)
        → (line < moments answers shown)
        ↔ ((line < length answers) × (length (concat (take line answers)) ≤ length shown)) }
    // Where more lines stand whole and more is shown, each moment that had come has come.
    ensures stay { (answers further : List (List ℕ)) (shown more : List ℕ)
        → moments answers shown ≤ moments (answers ++ further) (shown ++ more) }
    // And one more at most has come, where no answer is empty, and no byte was shown beyond the
    // answers to lines whose moment had come before.
    ensures one_by_one { (answers further : List (List ℕ)) (shown more : List ℕ)
        → All (λ answer. 0 < length answer) (answers ++ further)
        → length (shown ++ more) ≤ length (concat (take (moments answers shown) answers))
        → moments (answers ++ further) (shown ++ more) ≤ suc (moments answers shown) }
{}
