//! A block by whose change an index goes back and on again.

ghost use Rattle.ox_model.specs.Ends.{EndsIn};
ghost use Rattle.ox_index.specs.Live.{index_in, profile_in};

use crate::end::print_end;
use crate::look::dump;
use crate::print::say;
use ox_index::Live;
use ox_model::Change;
use std::alloc::Global;
use std::io;

/// Connects a block, goes back and on again by its change, and cancels that; each step with what
/// the index holds then.
pub fn lead_both_ways(
    rt: &impl Print,
    alloc: Global,
    live: &mut Live,
    block: &[u8],
    words: &str,
) -> io::Result<()> {
    match live.connect(block) {
        Ok(change) => go_back_and_on(rt, live, &change, words),
        Err(fault) => print_end(rt, alloc, live, Some(fault)),
    }
}

/// Goes back and on again by a change that ends here, and cancels that.
fn go_back_and_on(rt: &impl Print, live: &mut Live, change: &Change, words: &str) -> io::Result<()>
    requires { EndsIn (profile_in live.old) (index_in live.old) change.now }
{
    dump_step(rt, "connected", live, words)?;
    let Ok(()) = live.back(change) else {
        return dump_step(rt, "no memory", live, words);
    };
    dump_step(rt, "back", live, words)?;
    let Ok(()) = live.again(change) else {
        return dump_step(rt, "no memory", live, words);
    };
    dump_step(rt, "again", live, words)?;
    live.cancel();
    dump_step(rt, "cancelled", live, words)
}

/// What was done, and the whole index then.
fn dump_step(rt: &impl Print, step: &str, live: &Live, words: &str) -> io::Result<()> {
    say(rt, step)?;
    dump(rt, live, words)
}
