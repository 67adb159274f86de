//! A pool that no edict deals.

ghost use Rattle.std.specs.Prelude.{◌≡◌, ◌<◌, [], length, replicate, IfOk};
ghost use Rattle.std.specs.Option.{ForSome};
ghost use Rattle.ox_allocation.specs.Dealing.{whole_of};
ghost use Rattle.ox_allocation.specs.Gifts.{heir as heir_in};

use crate::allocation::Allocated;
use crate::balances::{Balances, Pool};
use crate::deal::holders_of;
use ox_block::TxOut;
use ox_bytes::{List, Memory};
use ox_script::is_return;
use std::alloc::Global;

/// The place of the output that gets what edicts leave: the pointer's, else the first that can hold
/// runes.
pub(crate) fn heir_of(
    alloc: Global,
    pointer: Option<u32>,
    outputs: &[TxOut],
) -> Result<Option<usize>, Memory>
    ensures { IfOk result (λ heir. heir ≡ heir_in outputs.now pointer) }
{
    match pointer {
        Some(place) => Ok(Some(place as usize)),
        None => Ok(holders_of(alloc, outputs)?.first().copied()),
    }
}

/// Gives all of a pool to the output at the heir's place. Where there is none, or it begins with
/// OP_RETURN, all is burned.
pub(crate) fn give_whole(
    alloc: Global,
    pool: Pool,
    heir: Option<usize>,
    outputs: &[TxOut],
) -> Result<Allocated, Memory>
    requires { ForSome heir (λ place. place < length outputs.now) }
    ensures given { IfOk result (λ a. a.given ≡ (whole_of outputs.now heir pool).given) }
    ensures burned { IfOk result (λ a. a.burned ≡ (whole_of outputs.now heir pool).burned) }
{
    let mut given = empty_balances(alloc, outputs.len())?;
    let runes = pool.into_balances(alloc)?;
    let Some(place) = heir else {
        return Ok(Allocated {
            given: List::from_vec(given),
            burned: runes,
        });
    };
    if is_return(outputs[place].script.as_slice()) {
        return Ok(Allocated {
            given: List::from_vec(given),
            burned: runes,
        });
    }
    given[place] = runes;
    Ok(Allocated {
        given: List::from_vec(given),
        burned: Balances::empty(alloc),
    })
}

/// So many balances without runes.
fn empty_balances(alloc: Global, count: usize) -> Result<Vec<Balances>, Memory>
    ensures { IfOk result (λ all. all.items ≡ replicate count []) }
{
    let mut all = Vec::with_capacity(alloc, count)?;
    for _ in 0..count {
        all.push(Balances::empty(alloc))?;
    }
    Ok(all)
}
