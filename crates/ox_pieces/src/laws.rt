//! Laws of frames that come in turn, and of followers.

ghost use Rattle.std.specs.Prelude.{◌≡◌, ◌++◌, List, ℕ, Some};
ghost use Rattle.ox_outside.specs.Shown.{IsFrontOf};
ghost use Rattle.ox_follow.specs.Frame.{Frame};
ghost use Rattle.ox_follow.specs.Front.{Whole, front_of};
ghost use Rattle.ox_follow.specs.Talk.{Takes, judged};
ghost use Rattle.ox_follow.specs.World.{Event, IsIn, Stood, after, begun};
ghost use Rattle.ox_model.specs.Stack.{Stack};
ghost use Rattle.ox_pieces.specs.Frames.{frames_in};
ghost use Rattle.ox_pieces.specs.Stood.{rules_of};

/// Whatever happens, a follower's files stand where its leader's once stood, for the same stack.
pub fn followers_hold_prefixes()
    ensures { (generation : ℕ) (body : List ℕ) (stack : Stack) (events : List Event)
        → (rules_of stack).spells body ≡ Some stack
        → let world = after (rules_of stack) (begun generation body stack) events in
        IsIn world.follower world.history }
{}

/// A piece changes no rules: the stack that it leads to has the same profile and depth.
pub fn rules_stay()
    ensures { (mine next : Stood Stack) (frame : Frame)
        → judged (rules_of mine.state) mine frame ≡ Takes next
        → rules_of next.state ≡ rules_of mine.state }
{}

/// More bytes leave the frames that stand in some bytes as they are.
pub fn frames_come_in_turn()
    ensures { (bytes more : List ℕ)
        → IsFrontOf (frames_in bytes).frames (frames_in (bytes ++ more)).frames }
{}
