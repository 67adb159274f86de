//! Values that the replies on runes share.

ghost use Rattle.std.specs.Prelude.{◌≡◌, ◌≤◌};
ghost use Rattle.serde_json.specs.Data.{string};
ghost use Rattle.ox_replies.specs.Named.{rune_id_text};
ghost use Rattle.ox_replies.specs.Runes.{name_tree, rune_id_tree};
ghost use Rattle.ox_replies.specs.Values.{amount};
ghost use Rattle.ox_name.specs.Amount.{amount_text};
ghost use Rattle.ox_query.specs.Written.{Adds, tokens_of};

use crate::bodies::Body;
use crate::values::text_of;
use arrayvec::ArrayString;
use itoa::Buffer;
use ox_model::{RuneId, RuneRow};
use ox_name::write_spaced;

/// Writes an amount, as the text of its digits.
pub(crate) fn write_amount(out: &mut Body, number: u128)
    ensures { Adds out.old out.new (tokens_of (amount number)) }
{
    out.string(Buffer::new().format(number));
}

/// A rune's id: the height and the place of its etching, with a colon between.
fn rune_id_text(id: &RuneId) -> ArrayString<31>
    ensures { result.bytes ≡ rune_id_text id.now }
{
    let mut text = ArrayString::new();
    text.push_str(Buffer::new().format(id.block));
    text.push_str(":");
    text.push_str(Buffer::new().format(id.tx));
    text
}

/// Writes a rune's id, as text.
pub(crate) fn write_rune_id(out: &mut Body, id: &RuneId)
    ensures { Adds out.old out.new (tokens_of (rune_id_tree id.now)) }
{
    out.string(rune_id_text(id).as_str());
}

/// Writes a rune's name, with its spacers.
pub(crate) fn write_rune_name(out: &mut Body, row: &RuneRow)
    ensures { Adds out.old out.new (tokens_of (name_tree row.now)) }
{
    let mut name = [0; 112];
    let len = write_spaced(row.name, row.spacers, &mut name);
    out.string(text_of(&name[..len]));
}

/// Writes an amount with so many decimals, as text.
pub(crate) fn write_shown(out: &mut Body, amount: u128, divisibility: u8)
    requires { divisibility ≤ 38 }
    ensures { Adds out.old out.new
        (tokens_of (string (amount_text amount divisibility))) }
{
    let mut shown = [0; 41];
    let len = ox_name::write_amount(amount, divisibility, &mut shown);
    out.string(text_of(&shown[..len]));
}
