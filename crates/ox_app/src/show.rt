//! Showing bytes whole.

ghost use Rattle.std.specs.Prelude.{◌≡◌, ◌⊎◌, OnErr};
ghost use Rattle.ox_outside.specs.Counts.{IsFailure, StopsAtFault};
ghost use Rattle.ox_outside.specs.Log.{Grows};
ghost use Rattle.ox_outside.specs.Runs.{OnlyTalks};
ghost use Rattle.ox_app.specs.Show.{MayFailToShow, Says, ShowFails, Shows, ShowsFront, ShowsText};
ghost use Rattle.ox_app.specs.declared.status.Status.TheVariants as ends;

use crate::status::Status;
use ox_outside::{Failed, Shown, Site};

/// Shows all of the bytes on channel 0, in as many pieces as it takes. `Failed` only where a
/// showing there failed in this call; a front of the bytes is shown then, and so it is at each
/// moment of the call.
pub fn show_all<S: Site>(site: &mut S, bytes: &[u8]) -> Result<(), Failed>
    ensures told { Grows (Shows bytes.now result) (S.log site.old) (S.log site.new) }
    ensures failed { OnErr result (ShowFails S.Site site.old site.new) }
    ensures counted { StopsAtFault ⊥ ⊥ (IsFailure result) (S.counts site.old) (S.counts site.new) }
    ensures talks { OnlyTalks S.Site (ShowsFront bytes.now) site.old site.new }
{
    let mut rest = bytes;
    while !rest.is_empty() {
        match site.show(0, rest)? {
            Shown::Took(n) => rest = rest.split_at(n).1,
            Shown::NotYet => unreachable!(),
        }
    }
    Ok(())
}

/// Shows a line whole, or a front of it where a showing failed.
pub fn say<S: Site>(site: &mut S, line: &[u8])
    ensures says { Says S.Site line.now site.old site.new }
    ensures counted { MayFailToShow (S.counts site.old) (S.counts site.new) }
    ensures talks { OnlyTalks S.Site (ShowsFront line.now) site.old site.new }
{
    let _shown = show_all(site, line);
}

/// Shows the bytes with which a run ends: `Done` once all are shown, and `ShowFault` where a
/// showing failed, so that a front of them is shown.
pub fn tell<S: Site>(site: &mut S, bytes: &[u8]) -> Status
    ensures shows { ShowsText S.Site bytes.now result site.old site.new }
    ensures status { (result ≡ ends.Done) ⊎ (result ≡ ends.ShowFault) }
    ensures failed { result ≡ ends.ShowFault → ShowFails S.Site site.old site.new }
    ensures counted { StopsAtFault ⊥ ⊥ (result ≡ ends.ShowFault)
        (S.counts site.old) (S.counts site.new) }
    ensures talks { OnlyTalks S.Site (ShowsFront bytes.now) site.old site.new }
{
    match show_all(site, bytes) {
        Ok(()) => Status::Done,
        Err(Failed) => Status::ShowFault,
    }
}
