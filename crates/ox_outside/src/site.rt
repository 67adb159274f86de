//! The one trait that reaches out. Its ghost members say what is read, logged, counted and left by
//! a crash.

ghost use Rattle.std.specs.Prelude.{◌≡◌, ℕ, ◌+◌, ◌<◌, ◌≤◌, Bool, false, List, length, slice_range};
ghost use Rattle.std.specs.Prelude.{Option, Some, None, Ok, IsTrue, IfOk, OnOk, OnErr};
ghost use Rattle.std.specs.Option.{ForSome};
ghost use Rattle.ox_outside.specs.Answers.{HeardWithin, ShownWithin, IsLinkNumber, NeverOpened};
ghost use Rattle.ox_outside.specs.Answers.{NeverNamed, IsOpenLink};
ghost use Rattle.ox_outside.specs.Counts.{Counts, CountsFile, CountsHearing, CountsShowing};
ghost use Rattle.ox_outside.specs.Counts.{NoFault, Rose};
ghost use Rattle.ox_outside.specs.Crash.{Remains, Tears, Follows, Only, AddsNothing, LeavesFiles};
ghost use Rattle.ox_outside.specs.Crash.{OneCall};
ghost use Rattle.ox_outside.specs.Event.{Event, is_there, is_open, has_given_up};
ghost use Rattle.ox_outside.specs.Event.{hear_events, show_events, door_events};
ghost use Rattle.ox_outside.specs.Event.{give_up_events, shut_events};
ghost use Rattle.ox_outside.specs.Files.{Files, file_of, with_file, with_bytes, TornFile};
ghost use Rattle.ox_outside.specs.Log.{Adds};

/// One of the two files.
#[derive(Clone, Copy, Debug, PartialEq, Eq)]
pub enum Which {
    A,
    B,
}

/// One of the two doors at which links come in.
#[derive(Clone, Copy, Debug, PartialEq, Eq)]
pub enum Doorway {
    Public,
    Operator,
}

/// What a channel gives: so many bytes in the front of the room, nothing yet, or its end.
#[derive(Clone, Copy, Debug, PartialEq, Eq)]
pub enum Heard {
    Bytes(usize),
    NotYet,
    End,
}

/// What a channel takes: so many bytes of the front of the piece, or nothing yet.
#[derive(Clone, Copy, Debug, PartialEq, Eq)]
pub enum Shown {
    Took(usize),
    NotYet,
}

/// The world outside refused a call. The count of its kind rose.
#[derive(Clone, Copy, Debug, PartialEq, Eq)]
pub struct Failed;

/// Two files, two doors at which links come in, and channels of bytes. Channel 0 is the program's
/// own input and output, and is always there; each other channel is a link that a door gave.
///
/// A site that tells its files says what is read of them and what a crash leaves; one that tells
/// its log says which links came, and which bytes were heard and shown. A site may tell nothing:
/// then the clauses on content say nothing, and those on safety, on the causes of a failure and on
/// counts hold all the same.
pub trait Site {
    /// Whether the files and what a crash leaves are told. Where they are, the log is told too.
    ghost told: { Self → Bool };

    /// What a read of each file gives.
    ghost seen: { Self → Files };

    /// The events of the channels so far, in order; none where the log isn't told.
    ghost log: { Self → Option (List Event) };

    /// What a crash now may leave: the two files, and the log so far.
    ghost may_leave: { Self → Remains → Type 0 };

    /// The moment, as a number that doesn't fall.
    ghost clock: { Self → ℕ };

    /// What a crash at some moment from that one on might have left, during a call or between two.
    ghost left_since: { Self → ℕ → Remains → Type 0 };

    /// How often each kind of call has failed or had nothing to give.
    ghost counts: { Self → Counts };

    /// The length of a file in bytes.
    fn len(&mut self, file: Which) -> Result<u64, Failed>
        ensures length { IsTrue (told self.old) → IfOk result (λ n.
            n ≡ length (file_of (seen self.old) file)) }
        ensures files { AddsNothing seen log may_leave self.old self.new }
        ensures failed { OnErr result (Rose (counts self.old).disk (counts self.new).disk) }
        ensures counted { CountsFile result (counts self.old) (counts self.new) }
        ensures call { OneCall told counts clock may_leave left_since self.old self.new };

    /// Fills the slice with the bytes of a file from this place on. The file has to have them.
    /// Where the files aren't told, a read past the end is `Failed`.
    fn read(&mut self, file: Which, at: u64, into: &mut [u8]) -> Result<(), Failed>
        requires { IsTrue (told self.old)
            → at + length into.old ≤ length (file_of (seen self.old) file) }
        ensures bytes { IsTrue (told self.old) → OnOk result (
            into.new ≡ slice_range (file_of (seen self.old) file) at (at + length into.old)) }
        ensures files { AddsNothing seen log may_leave self.old self.new }
        ensures failed { OnErr result (Rose (counts self.old).disk (counts self.new).disk) }
        ensures counted { CountsFile result (counts self.old) (counts self.new) }
        ensures call { OneCall told counts clock may_leave left_since self.old self.new };

    /// Writes bytes into a file at this place, which is at most its length, over what stood there
    /// and past the end. Until a sync of the file, a crash may leave any bytes in their range.
    /// After `Failed` the file itself may have any bytes there.
    fn write(&mut self, file: Which, at: u64, bytes: &[u8]) -> Result<(), Failed>
        requires { IsTrue (told self.old) → at ≤ length (file_of (seen self.old) file) }
        ensures written { IsTrue (told self.old) → OnOk result (
            seen self.new ≡ with_file (seen self.old) file (
            with_bytes at bytes.now (file_of (seen self.old) file))) }
        ensures cut_short { IsTrue (told self.old) → OnErr result (
            TornFile file at (length bytes.now) (seen self.old) (seen self.new)) }
        ensures logged { log self.new ≡ log self.old }
        ensures crash { Follows (Tears file at (length bytes.now))
            (may_leave self.old) (may_leave self.new) }
        ensures failed { OnErr result (Rose (counts self.old).disk (counts self.new).disk) }
        ensures counted { CountsFile result (counts self.old) (counts self.new) }
        ensures call { OneCall told counts clock may_leave left_since self.old self.new };

    /// An `fsync`: after it, a crash leaves of this file what a read gives.
    fn sync(&mut self, file: Which) -> Result<(), Failed>
        ensures durable { OnOk result (
            Only file (file_of (seen self.old) file) (may_leave self.new)) }
        ensures files { AddsNothing seen log may_leave self.old self.new }
        ensures failed { OnErr result (Rose (counts self.old).disk (counts self.new).disk) }
        ensures counted { CountsFile result (counts self.old) (counts self.new) }
        ensures call { OneCall told counts clock may_leave left_since self.old self.new };

    /// Takes bytes from a channel into the front of the room, at least one. Where the log isn't
    /// told, a channel that isn't there is `Failed`.
    fn hear(&mut self, channel: u32, into: &mut [u8]) -> Result<Heard, Failed>
        requires room { 1 ≤ length into.old }
        requires channel { ForSome (log self.old) (λ log. IsTrue (is_there channel log)) }
        ensures within { HeardWithin (length into.old) result }
        ensures own_input { channel ≡ 0 → result ≡ Ok Heard.NotYet → ⊥ }
        ensures logged { Adds (hear_events channel into.new result) (log self.old) (log self.new) }
        ensures files { LeavesFiles seen may_leave self.old self.new }
        ensures failed { OnErr result (
            Rose ((counts self.old).hear channel) ((counts self.new).hear channel)) }
        ensures counted { CountsHearing channel result (counts self.old) (counts self.new) }
        ensures not_yet { result ≡ Ok Heard.NotYet
            → Rose ((counts self.old).not_yets channel) ((counts self.new).not_yets channel) }
        ensures call { OneCall told counts clock may_leave left_since self.old self.new };

    /// Hands a piece to a channel, which takes at least the first byte of it, or nothing yet. Where
    /// the log isn't told, a channel that isn't there is `Failed`, and so is one that takes nothing
    /// for another reason than `NotYet`.
    fn show(&mut self, channel: u32, bytes: &[u8]) -> Result<Shown, Failed>
        requires piece { 1 ≤ length bytes.now }
        requires channel { ForSome (log self.old) (λ log. IsTrue (is_there channel log)) }
        ensures within { ShownWithin (length bytes.now) result }
        ensures own_output { channel ≡ 0 → result ≡ Ok Shown.NotYet → ⊥ }
        ensures logged { Adds (show_events channel bytes.now result) (log self.old) (log self.new) }
        ensures files { LeavesFiles seen may_leave self.old self.new }
        ensures failed { OnErr result (
            Rose ((counts self.old).show channel) ((counts self.new).show channel)) }
        ensures counted { CountsShowing channel result (counts self.old) (counts self.new) }
        ensures not_yet { result ≡ Ok Shown.NotYet
            → Rose ((counts self.old).not_yets channel) ((counts self.new).not_yets channel) }
        ensures call { OneCall told counts clock may_leave left_since self.old self.new };

    /// Takes a link that waits at the door, and answers its number: at least 1, and each number
    /// once, whatever the door. No event before names it, and the link is open then. `None` where
    /// nobody waits there. `Failed` where the door fails, or a link waits and the numbers are used
    /// up.
    fn door(&mut self, door: Doorway) -> Result<Option<u32>, Failed>
        ensures number { IsLinkNumber result }
        ensures new { ForSome (log self.old) (NeverOpened result) }
        ensures unnamed { ForSome (log self.old) (NeverNamed result) }
        ensures open { ForSome (log self.new) (IsOpenLink result) }
        ensures logged { Adds (door_events door result) (log self.old) (log self.new) }
        ensures files { LeavesFiles seen may_leave self.old self.new }
        ensures failed { OnErr result (Rose (counts self.old).door (counts self.new).door) }
        ensures counted { NoFault (counts self.old) (counts self.new) }
        ensures nobody { result ≡ Ok None
            → Rose ((counts self.old).door_idles door) ((counts self.new).door_idles door) }
        ensures call { OneCall told counts clock may_leave left_since self.old self.new };

    /// Says that memory ran out for a link, once for each link. Where the log isn't told, it does
    /// nothing.
    fn give_up(&mut self, channel: u32)
        requires channel { ForSome (log self.old) (λ log. IsTrue (is_open channel log)) }
        requires once { ForSome (log self.old) (λ log. has_given_up channel log ≡ false) }
        ensures logged { Adds (give_up_events channel) (log self.old) (log self.new) }
        ensures files { LeavesFiles seen may_leave self.old self.new }
        ensures counted { NoFault (counts self.old) (counts self.new) }
        ensures call { OneCall told counts clock may_leave left_since self.old self.new };

    /// Ends a link. Where the log isn't told, a link that isn't there is left so.
    fn shut(&mut self, channel: u32)
        requires channel { ForSome (log self.old) (λ log. IsTrue (is_open channel log)) }
        ensures logged { Adds (shut_events channel) (log self.old) (log self.new) }
        ensures files { LeavesFiles seen may_leave self.old self.new }
        ensures counted { NoFault (counts self.old) (counts self.new) }
        ensures call { OneCall told counts clock may_leave left_since self.old self.new };

    /// This moment is one of those since an earlier one.
    ghost counts_now: { (site : Self) (t : ℕ) (r : Remains) → t ≤ clock site → may_leave site r
        → left_since site t r };

    /// Since this moment there is no other.
    ghost only_now: { (site : Self) (r : Remains) → left_since site (clock site) r
        → may_leave site r };

    /// What might have been left since a moment might have been left since an earlier one.
    ghost since_earlier: { (site : Self) (t u : ℕ) (r : Remains) → t ≤ u → left_since site u r
        → left_since site t r };

    /// A crash leaves the log as it stands.
    ghost logs_now: { (site : Self) (r : Remains) → may_leave site r → log site ≡ Some r.log };

    /// The files as they read are what a crash may leave of them.
    ghost reads_now: { (site : Self) → IsTrue (told site)
        → (events : List Event) × (log site ≡ Some events)
        × may_leave site (record { files = seen site; log = events }) };
}
