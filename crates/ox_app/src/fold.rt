//! A feed, read to its end and answered line by line, without files.

ghost use Rattle.std.specs.Prelude.{◌≡◌, ◌<◌, ◌≤◌, IsErrOf};
ghost use Rattle.ox_outside.specs.Log.{Grows};
ghost use Rattle.ox_feed.specs.Feed.{IsTooMuch, Listens, feed_limit, bytes_left};
ghost use Rattle.ox_model.specs.Machine.{empty_machine, stack_of};
ghost use Rattle.ox_model.specs.Replies.{replies_on};
ghost use Rattle.ox_sat.specs.Profiles.{IsProfile};
ghost use Rattle.ox_index.specs.Chain.{stack_in};
ghost use Rattle.ox_app.specs.Fold.{AnswersNext, Anything, HasAnswer, fold_depth};
ghost use Rattle.ox_app.specs.Headline.{RunsFeed};
ghost use Rattle.ox_outside.specs.Runs.{OnlyTalks};
ghost use Rattle.ox_gated.specs.declared.fault.Halt.TheVariants as halts;
ghost use Rattle.ox_app.specs.Show.{EndsAtStop, HearFails, ShowFails};
ghost use Rattle.ox_app.specs.Status.{status_of};
ghost use Rattle.ox_app.specs.declared.stop.Stop.TheVariants as stops;

use crate::answer::answer;
use crate::show::show_all;
use crate::stop::Stop;
use ox_bytes::Bytes;
use ox_feed::Lines;
use ox_index::Chain;
use ox_outside::Site;
use ox_sat::Profile;
use std::alloc::Global;
use std::mem;

/// How many of its blocks a chain without files keeps.
const DEPTH: u16 = 1000;

/// Hears the next line and answers it; `None` at the end of the feed.
fn next_answer<S: Site>(
    alloc: Global,
    lines: &mut Lines,
    chain: &mut Chain,
    site: &mut S,
) -> Result<Option<Bytes>, Stop>
    ensures told { Grows (AnswersNext lines.old
        (stack_in chain.old) result lines.new (stack_in chain.new))
        (S.log site.old) (S.log site.new) }
    ensures hear_fault { IsErrOf result Stop.HearFault → HearFails S.Site site.old site.new }
    ensures no_show_fault { IsErrOf result Stop.ShowFault → ⊥ }
    ensures no_disk_fault { IsErrOf result (stops.Halt halts.Disk) → ⊥ }
    ensures counted { EndsAtStop result (S.counts site.old) (S.counts site.new) }
    ensures too_much { IsErrOf result Stop.TooMuch → IsTooMuch lines.new }
    ensures fewer { HasAnswer result → bytes_left lines.new < bytes_left lines.old }
    ensures count { lines.new.heard ≤ feed_limit }
    ensures talks { OnlyTalks S.Site (Listens lines.old) site.old site.new }
{
    let line = lines.next(site)?;
    Ok(answer(alloc, chain, line)?)
}

/// Reads the feed of channel 0 to its end, and shows the answer to each line. The chain counts by
/// this profile. At the end of the feed its index is left as it is: to take it apart would take
/// time, and its memory goes with the process.
pub fn fold<S: Site>(alloc: Global, p: &Profile, site: &mut S) -> Result<(), Stop>
    requires { IsProfile p.now }
    ensures told { Grows
        (RunsFeed (replies_on (stack_of (empty_machine p.now fold_depth))) (status_of result))
        (S.log site.old) (S.log site.new) }
    ensures hear_fault { IsErrOf result Stop.HearFault → HearFails S.Site site.old site.new }
    ensures show_fault { IsErrOf result Stop.ShowFault → ShowFails S.Site site.old site.new }
    ensures no_disk_fault { IsErrOf result (stops.Halt halts.Disk) → ⊥ }
    ensures counted { EndsAtStop result (S.counts site.old) (S.counts site.new) }
    ensures talks { OnlyTalks S.Site Anything site.old site.new }
{
    let mut lines = Lines::new(alloc);
    let mut chain = Chain::new(alloc, p, DEPTH)?;
    while let Some(answer) = next_answer(alloc, &mut lines, &mut chain, site)? {
        show_all(site, answer.as_slice())?;
    }
    // the process ends next, and gives all memory back at once
    mem::forget(chain);
    Ok(())
}
