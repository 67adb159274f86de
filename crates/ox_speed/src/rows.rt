//! Rows, to be appended and looked up.

ghost use Rattle.std.specs.Prelude.{◌≡◌};

use anyhow::bail;
use ox_bytes::Bytes;
use ox_envelope::{Ids, InsId, mark};
use ox_inscribe::{InsRow, Memory, SharedRow, Shelf};
use std::alloc::Global;

/// So many rows are appended at a time.
const BATCH: u32 = 1_000;

/// A row of so many has a mark. All rows are revealed below the jubilee.
const MARKED: u32 = 10;

const JUBILEE: u64 = 1 << 32;

/// What is done.
#[derive(Clone, Copy, PartialEq, Eq)]
pub(crate) enum Load {
    /// Looks each row up.
    Look,
    /// Asks each row's signed number.
    Number,
    /// Looks each row up, and whether it is found exactly as it was appended.
    Check,
    /// Goes back to a mark behind which rows were appended.
    Mark,
}

/// The order in which ids come.
#[derive(Clone, Copy, PartialEq, Eq)]
pub(crate) enum Order {
    /// Spread over all ids.
    Scattered,
    /// One behind the other: most begin with the same bytes.
    Rising,
}

/// The order of the ids that are looked up.
fn order_of(load: Load) -> Order {
    match load {
        Load::Check => Order::Rising,
        Load::Look | Load::Number | Load::Mark => Order::Scattered,
    }
}

/// The id of the row with a number.
pub(crate) fn id_of(order: Order, number: u32) -> InsId {
    let first = match order {
        Order::Scattered => number.wrapping_mul(0x9e37_79b1),
        Order::Rising => number,
    };
    let [a, b, c, d] = first.to_be_bytes();
    let mut txid = [0; 32];
    txid[0] = a;
    txid[1] = b;
    txid[2] = c;
    txid[3] = d;
    InsId { txid, index: 0 }
}

/// The row with a number, on the satoshi of twice the number, whose parent is the one before.
fn row_of(alloc: Global, order: Order, number: u32) -> Result<InsRow, Memory> {
    let mut parents = Ids::new(alloc);
    if number > 0 {
        parents.push(id_of(order, number - 1))?;
    }
    Ok(InsRow {
        id: id_of(order, number),
        height: number,
        content_type: Some(Bytes::copy(alloc, &[b't'; 24])?),
        body: Some(Bytes::copy(alloc, &[b'b'; 60])?),
        metadata: None,
        metaprotocol: None,
        encoding: None,
        pointer: None,
        delegate: None,
        parents,
        marks: mark::bit(number % MARKED == 0, mark::EVEN),
        sat: Some(u64::from(number) * 2),
    })
}

/// The rows of a batch that begins with this number.
fn rows_from(alloc: Global, order: Order, first: u32) -> Result<Vec<SharedRow>, Memory> {
    let mut rows = Vec::new(alloc);
    for place in 0..BATCH {
        let row = row_of(alloc, order, first.wrapping_add(place))?;
        rows.push(SharedRow::new(alloc, row)?)?;
    }
    Ok(rows)
}

/// Appends a batch of rows.
fn append_next(alloc: Global, order: Order, shelf: &mut Shelf) -> Result<(), Memory>
    ensures { shelf.new.mark ≡ shelf.old.mark }
{
    let rows = rows_from(alloc, order, shelf.len())?;
    if shelf.len() as usize + rows.len() > u32::MAX as usize {
        return Err(Memory);
    }
    shelf.append(&rows)
}

/// A shelf of so many rows.
fn shelf_of(alloc: Global, order: Order, count: u32) -> Result<Shelf, Memory> {
    let mut shelf = Shelf::new(alloc, JUBILEE);
    for _ in 0..count / BATCH {
        append_next(alloc, order, &mut shelf)?;
    }
    Ok(shelf)
}

/// The first of some numbers.
fn first_of(numbers: &[u32]) -> u64 {
    match numbers.first() {
        Some(number) => u64::from(*number),
        None => 0,
    }
}

/// The satoshi and the first number of what is next.
fn next_of(next: Option<(u64, &[u32])>) -> u64 {
    match next {
        Some((sat, numbers)) => sat.wrapping_add(first_of(numbers)),
        None => 0,
    }
}

/// The sum of the numbers that each row is found to have in four ways.
fn look(shelf: &Shelf) -> u64 {
    let mut sum: u64 = 0;
    for number in 0..shelf.len() {
        let sat = u64::from(number) * 2;
        sum = sum
            .wrapping_add(u64::from(shelf.find(&id_of(Order::Scattered, number)).unwrap_or(0)))
            .wrapping_add(first_of(shelf.on(sat)))
            .wrapping_add(next_of(shelf.next_on(sat + 1)))
            .wrapping_add(first_of(shelf.children(number)));
    }
    sum
}

/// The sum of the signed numbers of all rows, each without its sign.
fn number(shelf: &Shelf) -> u64 {
    let mut sum: u64 = 0;
    for sequence in 0..shelf.len() {
        sum = sum.wrapping_add(shelf.number(sequence).unsigned_abs());
    }
    sum
}

/// Whether numbers are these.
fn are(numbers: &[u32], expected: &[u32]) -> bool {
    numbers == expected
}

/// Whether a satoshi was found, this one, with these numbers.
fn is_next(found: Option<(u64, &[u32])>, sat: u64, numbers: &[u32]) -> bool {
    match found {
        Some((at, on)) => at == sat && on == numbers,
        None => false,
    }
}

/// Whether the row with a number is found by its id and by its satoshi.
fn is_found(shelf: &Shelf, number: u32) -> bool {
    shelf.find(&id_of(Order::Rising, number)) == Some(number)
        && are(shelf.on(u64::from(number) * 2), &[number])
}

/// Whether the row behind it is on the next satoshi that bears one, and is its only child.
fn is_followed(shelf: &Shelf, number: u32) -> bool {
    let behind = number.wrapping_add(1);
    let sat = u64::from(number) * 2;
    number < shelf.len()
        && is_next(shelf.next_on(sat + 1), sat + 2, &[behind])
        && are(shelf.children(number), &[behind])
}

/// Whether no satoshi past that of the row with a number bears one, and the row has no child.
fn is_last(shelf: &Shelf, number: u32) -> bool {
    number < shelf.len()
        && shelf.next_on(u64::from(number) * 2 + 1).is_none()
        && shelf.children(number).is_empty()
}

/// How many rows are found in each way, exactly as they were appended.
fn check(shelf: &Shelf) -> u64 {
    let mut right: u64 = 0;
    for number in 0..shelf.len() {
        let is_right = if number.wrapping_add(1) == shelf.len() {
            is_last(shelf, number)
        } else {
            is_followed(shelf, number)
        };
        if is_right && is_found(shelf, number) {
            right = right.wrapping_add(1);
        }
    }
    right
}

/// Sets the mark, appends a batch, and goes back.
fn go_back(alloc: Global, shelf: &mut Shelf) -> Result<u64, Memory> {
    shelf.begin();
    append_next(alloc, Order::Scattered, shelf)?;
    shelf.cancel();
    Ok(u64::from(shelf.len()))
}

/// Does this once.
fn turn(alloc: Global, load: Load, shelf: &mut Shelf) -> Result<u64, Memory> {
    match load {
        Load::Mark => go_back(alloc, shelf),
        Load::Check => Ok(check(shelf)),
        Load::Number => Ok(number(shelf)),
        Load::Look => Ok(look(shelf)),
    }
}

/// How many rows there are, and what was answered last.
fn work(alloc: Global, load: Load, count: u32, times: u32) -> Result<(u32, u64), Memory> {
    let mut shelf = shelf_of(alloc, order_of(load), count)?;
    let mut answer = 0;
    for _ in 0..times {
        answer = turn(alloc, load, &mut shelf)?;
    }
    Ok((shelf.len(), answer))
}

/// Keeps so many rows, does this so often, and tells what was answered last.
pub(crate) fn run(
    rt: &impl Print,
    alloc: Global,
    load: Load,
    count: u32,
    times: u32,
) -> anyhow::Result<()> {
    match work(alloc, load, count, times) {
        Ok((rows, answer)) => Ok(println!(rt; "{rows} rows, {answer}")?),
        Err(_) => bail!("no memory"),
    }
}
