//! Satoshis dealt to outputs.

ghost use Rattle.std.specs.Prelude.{◌≡◌, ◌≤◌, length, reverse, sum, Some, IfOk};
ghost use Rattle.ox_rules.specs.Deal.{deal};
ghost use Rattle.ox_transfer.specs.Parts.{values};

use ox_block::TxOut;
use ox_range::Ranges;
use ox_rules::Memory;

/// Deals satoshis to the outputs, which have `total` of them together, and answers what is left
/// over. The outputs' parts, the last output's first, take the place of what `parts` held. It goes
/// from the last output to the first: what is split off is moved, and what stays isn't.
pub(crate) fn deal_out(
    mut sats: Ranges,
    outputs: &[TxOut],
    total: u64,
    parts: &mut Vec<Ranges>,
) -> Result<Ranges, Memory>
    requires whole { total ≡ sum (values outputs.now) }
    requires enough { total ≤ length sats }
    ensures { IfOk result
        (λ rest. deal sats (values outputs.now) ≡ Some (reverse parts.new.items, rest)) }
{
    let rest = sats.split_off(total)?;
    parts.clear();
    parts.reserve(outputs.len())?;
    let mut place = total;
    for output in outputs.iter().rev() {
        place -= output.value;
        parts.push(sats.split_off(place)?)?;
    }
    Ok(rest)
}
