//! An index that is taken as plain data, written as rows, read from them and made again.

ghost use Rattle.std.specs.Prelude.{◌≡◌, IfOk};
ghost use Rattle.ox_index.specs.Live.{index_in};
ghost use Rattle.ox_plain.specs.Plain.{index_in as stands};
ghost use Rattle.ox_rows.specs.RowFits.{KeepsIndex};

use crate::look::dump;
use crate::print::say;
use ox_bytes::Memory;
use ox_checkpoint::sound_data_can_be_put;
use ox_index::Live;
use ox_model::View;
use ox_plain::Index;
use ox_rows::{read_index, write_index};
use std::alloc::Global;
use std::io;

/// Dumps the index that is made from the rows of an index.
pub fn dump_plain(rt: &impl Print, alloc: Global, live: &Live, words: &str) -> io::Result<()> {
    match made_again(alloc, live) {
        Ok(again) => dump(rt, &again, words),
        Err(_) => say(rt, "no memory"),
    }
}

/// The same index, made from the rows of its plain data. `Memory` where there is none for any of
/// them.
fn made_again(alloc: Global, live: &Live) -> Result<Live, Memory>
    ensures { IfOk result (λ again. index_in again ≡ index_in live.now) }
{
    let plain = live.plain()?;
    sound_data_can_be_put();
    let read = read_again(alloc, &plain)?;
    Live::of(alloc, live.profile(), read)
}

/// The index that is read from the rows of this one. `Memory` where there is none for either.
fn read_again(alloc: Global, index: &Index) -> Result<Index, Memory>
    requires { KeepsIndex (stands index.now) }
    ensures { IfOk result (λ again. stands again ≡ stands index.now) }
{
    let rows = write_index(alloc, index)?;
    match read_index(alloc, rows.as_slice()) {
        Ok((again, _)) => Ok(again),
        Err(_) => Err(Memory),
    }
}
