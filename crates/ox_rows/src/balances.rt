//! Balances of outputs.

ghost use Rattle.std.specs.Prelude.{◌≡◌, ◌<◌, ◌^◌, None, IfOk};
ghost use Rattle.ox_bytes.specs.Reading.{GivesOrMemory};
ghost use Rattle.ox_allocation.specs.Balances.{id_cmp};
ghost use Rattle.ox_rows.specs.FrontLaws.{balances_fronts};
ghost use Rattle.ox_rows.specs.RowFits.{AreHeld, FitsBalance, FitsHeld, FitsPlacement};
ghost use Rattle.ox_rows.specs.RowReading.{amount_at, balances_at, placements_at, rune_id_at};
ghost use Rattle.ox_rows.specs.Reading.{rising_at};
ghost use Rattle.ox_rows.specs.RowSpelling.{balance, placement};
ghost use Rattle.ox_rows.specs.Spelling.{list};

use crate::ids::rune_id_bytes;
use crate::put::put_list;
use crate::readable::Readable;
use crate::rising::{key_behind, rising_of};
use crate::writable::Writable;
use ox_allocation::{Balances, Pool};
use ox_bytes::{Bytes, FieldFault, List, Memory, ReadError, u32le_field};
use ox_ledger::Placement;
use ox_runestone::RuneId;
use std::alloc::Global;

/// An amount that isn't 0.
#[tactic(auto, unfolding(crate::specs::RowReading::amount_at))]
fn amount_of(alloc: Global, bytes: &[u8]) -> Result<(u128, &[u8]), ReadError>
    ensures read { GivesOrMemory (λ x. (x.0, x.1.now)) result (amount_at bytes.now) }
    ensures some { IfOk result (λ x. 0 < x.0) }
    ensures fits { IfOk result (λ x. x.0 < 2 ^ 128) }
{
    let (amount, rest) = u128::read(alloc, bytes)?;
    if amount == 0 {
        return Err(ReadError::Fault(FieldFault { left: bytes.len() }));
    }
    Ok((amount, rest))
}

/// That many runes and their amounts, ids rising.
fn pool_of(alloc: Global, count: u32, bytes: &[u8]) -> Result<(Pool, &[u8]), ReadError>
    ensures { GivesOrMemory (λ x. (x.0, x.1.now)) result
        (rising_at id_cmp rune_id_at amount_at None count bytes.now) }
{
    let mut pool = Pool::new(alloc);
    let mut last = None;
    let mut rest = bytes;
    for _ in 0..count {
        let (id, behind_id) = key_behind::<RuneId>(alloc, last, rest)?;
        let (amount, after) = amount_of(alloc, behind_id)?;
        pool.add(id, amount)?;
        last = Some(id);
        rest = after;
    }
    Ok((pool, rest))
}

impl Readable for Balances {
    ghost at = { balances_at };

    #[tactic(auto, unfolding(crate::specs::RowReading::balances_at))]
    fn read(alloc: Global, bytes: &[u8]) -> Result<(Balances, &[u8]), ReadError> {
        let (count, rest) = u32le_field(bytes)?;
        if count == 0 {
            return Err(ReadError::Fault(FieldFault { left: bytes.len() }));
        }
        let (pool, rest) = pool_of(alloc, count, rest)?;
        Ok((pool.into_balances(alloc)?, rest))
    }

    ghost fronts = { balances_fronts };
}

/// A rune and how much of it there is, spelled.
fn balance_bytes(id: RuneId, amount: u128) -> [u8; 28]
    ensures spelled { result ≡ balance (id, amount) }
    ensures fits { FitsBalance (id, amount) }
{
    let mut bytes = [0; 28];
    let (front, back) = bytes.split_at_mut(12);
    front.copy_from_slice(&rune_id_bytes(id));
    back.copy_from_slice(&amount.to_le_bytes());
    bytes
}

impl Writable for (RuneId, u128) {
    ghost spelling = { balance };

    ghost fits = { FitsBalance };

    ghost keeps = { λ one. Unit {0} };

    fn put(&self, bytes: &mut Bytes) -> Result<(), Memory> {
        let (id, amount) = *self;
        bytes.append(&balance_bytes(id, amount))
    }
}

impl Writable for Balances {
    ghost spelling = { list balance };

    ghost fits = { FitsHeld };

    ghost keeps = { AreHeld };

    fn put(&self, bytes: &mut Bytes) -> Result<(), Memory> {
        put_list(bytes, self.as_slice())
    }
}

impl Writable for Placement {
    ghost spelling = { placement };

    ghost fits = { FitsPlacement };

    ghost keeps = { λ placed. AreHeld placed.1 };

    fn put(&self, bytes: &mut Bytes) -> Result<(), Memory> {
        let (at, balances) = self;
        at.put(bytes)?;
        balances.put(bytes)
    }
}

/// Balances of outputs: how many outputs in 4 bytes, and these by rising outpoint.
#[tactic(auto, unfolding(crate::specs::RowReading::placements_at))]
pub(crate) fn placements_of(
    alloc: Global,
    bytes: &[u8],
) -> Result<(List<Placement>, &[u8]), ReadError>
    ensures { GivesOrMemory (λ x. (x.0, x.1.now)) result (placements_at bytes.now) }
{
    let (count, rest) = u32le_field(bytes)?;
    let (rows, rest) = rising_of(alloc, count, rest)?;
    Ok((List::from_vec(rows), rest))
}
