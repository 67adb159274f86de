//! A write of two pieces that is on the disk before anything else is done.

ghost use Rattle.std.specs.Prelude.{◌≡◌, ◌≤◌, ◌<◌, ◌+◌, ◌^◌, ◌++◌, IsTrue, OnOk, OnErr, length};
ghost use Rattle.ox_outside.specs.Counts.{IsFailure, Rose, StopsAtFault};
ghost use Rattle.ox_outside.specs.Crash.{Remains, Only};
ghost use Rattle.ox_outside.specs.Runs.{LeavesOnly};
ghost use Rattle.ox_outside.specs.Files.{file_of, with_file, with_bytes, other, TornFile};
ghost use Rattle.ox_gated.specs.Tail.{IsSettled};
ghost use Rattle.ox_gated.specs.Writes.{OnlyWrites};

use ox_outside::{Failed, Site, Which};

/// Writes two pieces into a file, one behind the other, and syncs it once.
pub fn write_pieces_synced<S: Site>(
    site: &mut S,
    file: Which,
    at: u64,
    front: &[u8],
    behind: &[u8],
) -> Result<(), Failed>
    requires place { IsTrue (S.told site.old) → at ≤ length (file_of (S.seen site.old) file) }
    requires fits { at + length front.now < 2 ^ 64 }
    ensures written { IsTrue (S.told site.old)
        → OnOk result (
        S.seen site.new
        ≡ with_file (S.seen site.old) file
        (with_bytes at (front.now ++ behind.now) (file_of (S.seen site.old) file))) }
    ensures durable { OnOk result
        (Only file (file_of (S.seen site.new) file) (S.may_leave site.new)) }
    ensures others { (r : Remains) → S.may_leave site.new r
        → (q : Remains) × S.may_leave site.old q
        × (file_of r.files (other file) ≡ file_of q.files (other file)) }
    ensures moments { IsSettled S.Site site.old
        → LeavesOnly S.Site site.old site.new
        (λ r. TornFile file at (length (front.now ++ behind.now)) (S.seen site.old) r.files) }
    ensures failed { OnErr result (Rose (S.counts site.old).disk (S.counts site.new).disk) }
    ensures counted { StopsAtFault (IsFailure result) ⊥ ⊥ (S.counts site.old) (S.counts site.new) }
    ensures writes { OnlyWrites S.Site site.old site.new }
{
    site.write(file, at, front)?;
    site.write(file, at + front.len() as u64, behind)?;
    site.sync(file)
}
