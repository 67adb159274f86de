//! Laws of frames, and of a leader and a follower over any kind of state.

ghost use Rattle.std.specs.Prelude.{◌≡◌, ◌≢◌, ◌++◌, List, ℕ, Some, length};
ghost use Rattle.ox_follow.specs.Position.{AtMost};
ghost use Rattle.ox_follow.specs.Frame.{Frame, FitsFrame, spelled};
ghost use Rattle.ox_follow.specs.Front.{More, Whole, front_of};
ghost use Rattle.ox_follow.specs.World.{Event, IsIn, Rules, Stood, World, after, begun, happened};
ghost use Rattle.ox_follow.specs.World.{took};
ghost use Rattle.ox_follow.specs.Talk.{BadFrame, Ends, IsOwn, judged, stands_by};

/// What is written reads back with its length, whatever follows it.
pub fn frames_read_back()
    ensures { (frame : Frame) (more : List ℕ) → FitsFrame frame
        → front_of (spelled frame ++ more) ≡ Whole frame (length (spelled frame)) }
{}

/// Once a frame or a fault stands at the front, more bytes change nothing.
pub fn longer_fronts_read_alike()
    ensures { (bytes more : List ℕ) → front_of bytes ≢ More
        → front_of (bytes ++ more) ≡ front_of bytes }
{}

/// Whatever happens, the follower's files stand where the leader's files once stood: at the same
/// position, for the same state.
pub fn followers_hold_prefixes<X>()
    ensures { (rules : Rules X) (generation : ℕ) (body : List ℕ) (state : X) (events : List Event)
        → rules.spells body ≡ Some state
        → let world = after rules (begun generation body state) events in
        IsIn world.follower world.history }
{}

/// No event lowers the follower's position.
pub fn followers_never_fall<X>()
    ensures { (rules : Rules X) (world : World X) (event : Event)
        → AtMost world.follower.at (happened rules world event).follower.at }
{}

/// No frame of a follower's own leader ends it as a bad one.
pub fn own_frames_fit<X>()
    ensures { (rules : Rules X) (generation : ℕ) (body : List ℕ) (state : X) (events : List Event)
        → rules.spells body ≡ Some state
        → let world = after rules (begun generation body state) events in
        (frame : Frame) → IsIn frame world.sent → IsOwn frame
        → judged rules world.follower frame ≢ Ends BadFrame }
{}

/// What a follower takes of a frame is what is judged of it.
pub fn takes_are_judged<X>()
    ensures { (rules : Rules X) (mine : Stood X) (frame : Frame)
        → took rules mine frame ≡ stands_by mine (judged rules mine frame) }
{}
