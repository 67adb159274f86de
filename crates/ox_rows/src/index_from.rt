//! An index, read row by row of what comes.

ghost use Rattle.ox_plain.specs.Plain.{index_in};
ghost use Rattle.ox_rows.specs.Promises.{NextPromises};
ghost use Rattle.ox_rows.specs.RowReading.{index_at};

use crate::lists_from::{list_from, table_from};
use crate::next::{NextFault, next_row};
use crate::source::Source;
use crate::window::Window;
use ox_plain::Index;
use std::alloc::Global;

/// The index whose rows are next, read list after list and row after row. What is behind them is
/// ahead then. A fault's place and `Memory` are as for `next_row`: however many items are told,
/// no memory is taken for those that aren't there.
pub fn read_index_from<W, S: Source<W>>(
    alloc: Global,
    window: &mut Window,
    source: &mut S,
    world: &mut W,
) -> Result<Index, NextFault<S::Fault>>
    requires ready { S.ready source.old world.old }
    ensures { NextPromises S.Source index_in index_at result window.old window.new source.old
        source.new world.old world.new }
{
    let hashes = list_from(alloc, window, source, world)?;
    let outs = table_from(alloc, window, source, world)?;
    let lost = next_row(alloc, window, source, world)?;
    let inscriptions = list_from(alloc, window, source, world)?;
    let bal = table_from(alloc, window, source, world)?;
    let runes = list_from(alloc, window, source, world)?;
    Ok(Index {
        hashes,
        outs,
        lost,
        inscriptions,
        bal,
        runes,
    })
}
