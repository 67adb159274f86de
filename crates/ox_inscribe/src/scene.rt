//! Where a transaction's inscriptions stand.

ghost use Rattle.std.specs.Prelude.{◌≡◌, ◌<◌, Some, None, nat_lt, if◌then◌else◌};
ghost use Rattle.ox_script.specs.Script.{little_endian};
ghost use Rattle.ox_inscribe.specs.Reveal.{goes_to_fees, is_unbound, marks_of, place_from};
ghost use Rattle.ox_inscribe.specs.Reveal.{place_of, sat_of};
ghost use Rattle.ox_inscribe.specs.Scenes.{revealing};

use crate::sightings::Sighting;
use ox_block::Txid;
use ox_bytes::Bytes;
use ox_envelope::mark::{INPUT, OFFSET, REINSCRIPTION, bit};
use ox_range_index::RangeIndex;

/// What the rows of a transaction have in common.
#[derive(Drop)]
pub(crate) struct Scene<'a> {
    pub(crate) txid: Txid,
    pub(crate) height: u32,
    /// The satoshis of its inputs, joined.
    pub(crate) joined: RangeIndex<'a>,
    /// How many of them its outputs take.
    pub(crate) taken: u64,
}

/// The number that bytes are, the lowest first, if it is below an end.
fn number_below(bytes: &[u8], end: u64) -> Option<u64>
    ensures { result ≡ (if nat_lt (little_endian bytes.now) end
        then Some (little_endian bytes.now) else None) }
{
    let mut number: u64 = 0;
    for behind in 0..bytes.len() {
        let byte = bytes[bytes.len() - 1 - behind];
        number = number.checked_mul(256)?.checked_add(u64::from(byte))?;
    }
    if number < end { Some(number) } else { None }
}

/// The place among a transaction's satoshis that an envelope points at, or the first of its input.
fn place_from(taken: u64, before: u64, pointer: &Option<Bytes>) -> u64
    ensures { result ≡ place_from taken before pointer.now }
{
    match pointer {
        Some(bytes) => match number_below(bytes.as_slice(), taken) {
            Some(place) => place,
            None => before,
        },
        None => before,
    }
}

impl Sighting {
    /// Whether it is unbound.
    pub(crate) fn is_unbound(&self) -> bool
        ensures { result ≡ is_unbound self.now }
    {
        self.says.marks % 2 == 1 || self.sats == 0
    }

    /// The marks of its row, whose satoshi bore an inscription before or not.
    pub(crate) fn marks(&self, bore: bool) -> u16
        requires { self.now.says.marks < 128 }
        ensures { result ≡ marks_of self.now bore }
    {
        self.says.marks
            + bit(self.input != 0, INPUT)
            + bit(self.place != 0, OFFSET)
            + bit(bore, REINSCRIPTION)
    }
}

impl<'a> Scene<'a> {
    /// The place among the transaction's satoshis of an envelope that isn't unbound.
    fn place_of(&self, seen: &Sighting) -> u64
        ensures { result ≡ place_of (revealing self.now) seen.now }
    {
        place_from(self.taken, seen.before, &seen.says.pointer)
    }

    /// The satoshi that an envelope is on.
    pub(crate) fn sat_of(&self, seen: &Sighting) -> Option<u64>
        ensures { result ≡ sat_of (revealing self.now) seen.now }
    {
        if seen.is_unbound() {
            None
        } else {
            self.joined.get(self.place_of(seen))
        }
    }

    /// Whether that satoshi goes to the fees.
    pub(crate) fn goes_to_fees(&self, seen: &Sighting) -> bool
        ensures { result ≡ goes_to_fees (revealing self.now) seen.now }
    {
        !seen.is_unbound() && self.taken <= self.place_of(seen)
    }
}
