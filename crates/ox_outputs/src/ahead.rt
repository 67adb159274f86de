//! Reading ahead. Outpoints are spread over all of memory, and one look-up after the other would
//! wait for each of its places. So what a block will ask for is read before, some outpoints at a
//! time and a little of each place: nothing there waits for what another place says, so that the
//! processor fetches many side by side, and has them still at hand when they are asked for.

use crate::slot_of::SlotOf;
use crate::slots::Slots;
use ox_block::{Block, OutPoint, Tx, Txid, Txids};
use ox_bytes::Memory;
use ox_rules::{OutRow, TableRows};
use std::alloc::Global;

/// So many outpoints are read at a time.
const BATCH: usize = 32;

/// With fewer slots than this nothing is read ahead: they, their rows and the lists of their places
/// come to about a megabyte, which stays in a processor's own cache, so that hardly a look-up waits
/// for memory, and to read ahead costs more than it saves.
const WORTHWHILE: usize = 4_096;

/// The outpoints that will be asked for, in order. It is a hint: where others are asked for, or
/// where there was no memory for these, all is as it would be without it, but slower.
#[derive(Drop)]
pub(crate) struct Ahead {
    wanted: Vec<OutPoint>,
    /// How many were asked for.
    asked: usize,
    /// What was read, added up. It says nothing, and is there so that no reading is left out.
    sum: u32,
}

impl Ahead {
    /// Nothing will be asked for, as far as is known.
    pub(crate) fn new(alloc: Global) -> Ahead {
        Ahead {
            wanted: Vec::new(alloc),
            asked: 0,
            sum: 0,
        }
    }

    /// What a block asks for whose transactions have these ids, in order: the outputs that each
    /// transaction spends and those that it makes, and those of the coinbase last. Nothing where
    /// there are few slots.
    pub(crate) fn expect_block(&mut self, slots: &Slots, block: &Block, ids: &Txids) {
        self.forget();
        if are_many(slots) && self.list_block(block, ids).is_err() {
            self.forget();
        }
    }

    /// What is asked for to take some rows out, the last first, and then to place others so.
    /// Nothing where there are few slots.
    pub(crate) fn expect_rows(&mut self, slots: &Slots, out: &TableRows, placed: &TableRows) {
        self.forget();
        if are_many(slots) && self.list_both(out, placed).is_err() {
            self.forget();
        }
    }

    fn forget(&mut self) {
        self.wanted.clear();
        self.asked = 0;
    }

    fn list_block(&mut self, block: &Block, ids: &Txids) -> Result<(), Memory> {
        let Some((coinbase, txs)) = block.txs.as_slice().split_first() else {
            return Ok(());
        };
        let Some((id, ids)) = ids.as_slice().split_first() else {
            return Ok(());
        };
        for (tx, id) in txs.iter().zip(ids) {
            self.list_tx(tx, Txid(*id))?;
        }
        self.list_outputs(coinbase, Txid(*id))
    }

    fn list_tx(&mut self, tx: &Tx, txid: Txid) -> Result<(), Memory> {
        for input in tx.inputs.as_slice() {
            self.wanted.push(input.from)?;
        }
        self.list_outputs(tx, txid)
    }

    fn list_outputs(&mut self, tx: &Tx, txid: Txid) -> Result<(), Memory> {
        let mut at = OutPoint { txid, index: 0 };
        for _ in tx.outputs.as_slice() {
            self.wanted.push(at)?;
            at.index = at.index.wrapping_add(1);
        }
        Ok(())
    }

    fn list_both(&mut self, out: &TableRows, placed: &TableRows) -> Result<(), Memory> {
        self.list_rows(out)?;
        self.list_rows(placed)
    }

    fn list_rows(&mut self, rows: &TableRows) -> Result<(), Memory> {
        for (at, _) in rows.as_slice().iter().rev() {
            self.wanted.push(*at)?;
        }
        Ok(())
    }

    /// Now the next one is asked for. Before the first of some, these are read.
    pub(crate) fn step(&mut self, slots: &Slots) {
        if self.asked >= self.wanted.len() {
            return;
        }
        if self.asked % BATCH == 0 {
            let batch = batch_from(self.wanted.as_slice(), self.asked);
            self.sum = self.sum.wrapping_add(read(slots, batch));
        }
        self.asked = self.asked.wrapping_add(1);
    }

    /// Reads the slots that changes left, and what leads to them, of those changes before which a
    /// row stood. Nothing where there are few slots.
    pub(crate) fn read_changed(
        &mut self,
        slots: &Slots,
        changed: &[SlotOf],
        before: &[Option<OutRow>],
    ) {
        if !are_many(slots) {
            return;
        }
        for (spot, row) in changed.iter().zip(before) {
            if row.is_some() {
                let list = slots.glance_at(&spot.at);
                let slot = slots.glance(spot.place);
                self.sum = self.sum.wrapping_add(list).wrapping_add(slot);
            }
        }
    }
}

/// Whether there are so many slots that it is worthwhile to read ahead.
fn are_many(slots: &Slots) -> bool {
    slots.len() >= WORTHWHILE
}

/// The outpoints from one on, as many as are read at a time.
fn batch_from(wanted: &[OutPoint], from: usize) -> &[OutPoint] {
    match wanted.get(from..) {
        Some(left) => &left[..left.len().min(BATCH)],
        None => &[],
    }
}

/// Reads what leads to each of these, and then the slots that are there. Which slots these are is
/// found out before any of them is read, so that no search waits for one.
fn read(slots: &Slots, wanted: &[OutPoint]) -> u32 {
    let mut sum = 0u32;
    for at in wanted {
        sum = sum.wrapping_add(slots.glance_at(at));
    }
    let mut places = [0; BATCH];
    let count = candidates(slots, wanted, &mut places);
    for place in &places[..count.min(BATCH)] {
        sum = sum.wrapping_add(slots.glance(*place));
    }
    sum
}

/// Puts down the places of slots that may be those of these outpoints, and answers how many.
fn candidates(slots: &Slots, wanted: &[OutPoint], places: &mut [u32; BATCH]) -> usize {
    let mut count = 0;
    for at in wanted {
        if let Some(place) = slots.candidate(at) {
            if count < BATCH {
                places[count] = place;
                count += 1;
            }
        }
    }
    count
}
