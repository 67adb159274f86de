//! The envelopes of a transaction, in order.

ghost use Rattle.std.specs.Prelude.{◌≡◌, ◌<◌, ◌++◌, ◌∷◌, [], length, unwrap_or, All, IfOk, OnOk};
ghost use Rattle.ox_script.specs.Witness.{tapscript};
ghost use Rattle.ox_rules.specs.Outputs.{sats_of};
ghost use Rattle.ox_inscribe.specs.Reveal.{said_by, sightings_from, sightings_in, sources_of};

use ox_block::TxIn;
use ox_bytes::Memory;
use ox_envelope::{Inscribed, envelopes_of, parse};
use ox_rules::OutRow;
use ox_script::tapscript_place;
use std::alloc::Global;

/// An envelope, and where it stands.
#[derive(Drop)]
pub(crate) struct Sighting {
    pub(crate) says: Inscribed,
    /// The place of its input.
    pub(crate) input: usize,
    /// Its own place among that input's envelopes.
    pub(crate) place: usize,
    /// How many satoshis the inputs before bring.
    pub(crate) before: u64,
    /// How many satoshis its input brings.
    pub(crate) sats: u64,
}

/// The tapscript of an input's witness, and no bytes where it has none.
fn tapscript_of(input: &TxIn) -> &[u8]
    ensures { result.now ≡ unwrap_or (tapscript input.now.witness) [] }
{
    let witness = &input.witness;
    let Some(last) = witness.last() else {
        return &[];
    };
    match tapscript_place(witness.len(), last) {
        Some(place) => witness.get(place).unwrap_or(&[]),
        None => &[],
    }
}

/// Puts an envelope behind those that were seen before. Most transactions have one alone, which is
/// some 300 bytes, so the first takes room for no more.
fn push_seen(seen: &mut Vec<Sighting>, one: Sighting) -> Result<(), Memory>
    ensures { OnOk result (seen.new.items ≡ seen.old.items ++ one ∷ []) }
{
    if seen.is_empty() {
        seen.reserve_exact(1)?;
    }
    seen.push(one)?;
    Ok(())
}

/// Puts the envelopes of an input behind those that were seen before.
fn see_envelopes(
    alloc: Global,
    seen: &mut Vec<Sighting>,
    from: &TxIn,
    input: usize,
    before: u64,
    sats: u64,
) -> Result<(), Memory>
    ensures { OnOk result (seen.new.items
        ≡ seen.old.items ++ sightings_in input before sats 0 (said_by from.now)) }
{
    let found = envelopes_of(alloc, tapscript_of(from))?;
    let envelopes = found.as_slice();
    for (place, envelope) in envelopes.iter().enumerate() {
        let says = parse(alloc, envelope)?;
        let one = Sighting {
            says,
            input,
            place,
            before,
            sats,
        };
        push_seen(seen, one)?;
    }
    Ok(())
}

/// The envelopes of a transaction whose inputs spend these rows, which hold so many satoshis.
pub(crate) fn sightings_of(
    alloc: Global,
    inputs: &[TxIn],
    spent: &[OutRow],
    held: u64,
) -> Result<Vec<Sighting>, Memory>
    requires each { length spent.now ≡ length inputs.now }
    requires held { held ≡ length (sats_of spent.now) }
    ensures seen { IfOk result
        (λ seen. seen.items ≡ sightings_from 0 0 (sources_of inputs.now spent.now)) }
    ensures small { IfOk result (λ seen. All (λ one. one.says.marks < 128) seen.items) }
{
    let mut seen = Vec::new(alloc);
    let mut left = held;
    for (place, input) in inputs.iter().enumerate() {
        let sats = spent[place].sats.len();
        see_envelopes(alloc, &mut seen, input, place, held - left, sats)?;
        left -= sats;
    }
    Ok(seen)
}
