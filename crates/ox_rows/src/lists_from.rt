//! Lists and tables, read row by row of what comes.

ghost use Rattle.std.specs.Prelude.{None};
ghost use Rattle.ox_bytes.specs.Reading.{times};
ghost use Rattle.ox_rows.specs.Promises.{NextPromises};
ghost use Rattle.ox_rows.specs.Reading.{list_at, rising_at};
ghost use Rattle.ox_rows.specs.RowReading.{rows_at};

use crate::next::{NextFault, next_by, next_row};
use crate::readable::Readable;
use crate::source::Source;
use crate::tables::table_of;
use crate::window::Window;
use ox_block::OutPoint;
use ox_bytes::List;
use std::alloc::Global;
use std::collections::BTreeMap;

/// The list that is next: how many values in 4 bytes, and these, one by one. What is behind them is
/// ahead then. A fault's place and `Memory` are as for `next_row`: however many are told, no memory
/// is taken for those that aren't there.
pub fn list_from<T: Readable + Drop, W, S: Source<W>>(
    alloc: Global,
    window: &mut Window,
    source: &mut S,
    world: &mut W,
) -> Result<List<T>, NextFault<S::Fault>>
    requires ready { S.ready source.old world.old }
    ensures { NextPromises S.Source (λ x. x) (list_at T.at) result window.old window.new source.old
        source.new world.old world.new }
{
    let count = next_row::<u32, W, S>(alloc, window, source, world)?;
    values_from(alloc, count, window, source, world)
}

/// That many values.
fn values_from<T: Readable + Drop, W, S: Source<W>>(
    alloc: Global,
    count: u32,
    window: &mut Window,
    source: &mut S,
    world: &mut W,
) -> Result<List<T>, NextFault<S::Fault>>
    requires ready { S.ready source.old world.old }
    ensures { NextPromises S.Source (λ x. x) (times T.at count) result window.old window.new
        source.old source.new world.old world.new }
{
    let mut values = List::new(alloc);
    for _ in 0..count {
        let value = next_row::<T, W, S>(alloc, window, source, world)?;
        values.push(value)?;
    }
    Ok(values)
}

/// That many values, each behind its key; keys rise.
fn rising_from<K: Readable + Ord + Copy, X: Readable + Drop, W, S: Source<W>>(
    alloc: Global,
    count: u32,
    window: &mut Window,
    source: &mut S,
    world: &mut W,
) -> Result<Vec<(K, X)>, NextFault<S::Fault>>
    requires ready { S.ready source.old world.old }
    ensures { NextPromises S.Source (λ x. x.items) (rising_at K.cmp K.at X.at None count) result
        window.old window.new source.old source.new world.old world.new }
{
    let mut rows = Vec::new(alloc);
    let mut last: Option<K> = None;
    for _ in 0..count {
        let key = next_by(last, alloc, window, source, world)?;
        let value = next_row::<X, W, S>(alloc, window, source, world)?;
        rows.push((key, value))?;
        last = Some(key);
    }
    Ok(rows)
}

/// The table that is next, as long as its count says: rows by their outpoints, which rise.
pub(crate) fn table_from<X: Readable + Drop, W, S: Source<W>>(
    alloc: Global,
    window: &mut Window,
    source: &mut S,
    world: &mut W,
) -> Result<BTreeMap<OutPoint, X>, NextFault<S::Fault>>
    requires ready { S.ready source.old world.old }
    ensures { NextPromises S.Source (λ x. x.entries) (rows_at X.at) result window.old window.new
        source.old source.new world.old world.new }
{
    let count = next_row::<u32, W, S>(alloc, window, source, world)?;
    let rows = rising_from(alloc, count, window, source, world)?;
    Ok(table_of(alloc, rows)?)
}
