//! Inscription ids.

ghost use Rattle.std.specs.Prelude.{◌≡◌, ◌+◌, ◌≤◌, ◌++◌, Some, None, Ok, IfSome, reverse, take};
ghost use Rattle.std.specs.Prelude.{drop, length, bytes_eq, if◌then◌else◌};
ghost use Rattle.std.specs.Str.Parse.{digits_value};
ghost use Rattle.hex.specs.Hex.{encode_lower, decode_sized};
ghost use Rattle.ox_script.specs.Script.{little_endian};
ghost use Rattle.ox_envelope.specs.Id.{is_index, is_number, id_of_value, id_of_text, id_text};

use itoa::Buffer;
use ox_shards::{Sharded, spread_of, tag_of};

/// The id of an inscription: the transaction that revealed it, and which of that transaction's
/// envelopes it is.
#[derive(Clone, Copy, PartialEq, Eq, PartialOrd, Ord)]
pub struct InsId {
    /// The transaction's id in serialized byte order, the reverse of what is printed.
    pub txid: [u8; 32],
    /// The envelope's number in the transaction, counted from 0 over its inputs in order.
    pub index: u32,
}

/// By parts of the id of the transaction that revealed the inscription, and the index.
impl Sharded for InsId {
    ghost use Rattle.ox_shards.specs.Keys.{spread_of, tag_of};
    ghost use Rattle.ox_shards.specs.Laws.{ids_alike, ids_tagged};

    ghost spread = { λ id. spread_of id.txid id.index };

    fn spread(&self) -> u64 {
        spread_of(&self.txid, self.index)
    }

    ghost alike = { λ a b. ids_alike a.txid b.txid a.index b.index };

    ghost tag = { λ id. tag_of id.txid id.index };

    fn tag(&self) -> u32 {
        tag_of(&self.txid, self.index)
    }

    ghost same_tag = { λ a b. ids_tagged a.txid b.txid a.index b.index };
}

/// The index that these bytes are: at most 3, low byte first, of which the last isn't 0, or exactly
/// 4.
fn read_index(bytes: &[u8]) -> Option<u32>
    ensures { result ≡ (if is_index bytes.now then Some (little_endian bytes.now) else None) }
{
    match bytes {
        [] => Some(0),
        [a] if *a != 0 => Some(u32::from(*a)),
        [a, b] if *b != 0 => Some(u32::from_le_bytes([*a, *b, 0, 0])),
        [a, b, c] if *c != 0 => Some(u32::from_le_bytes([*a, *b, *c, 0])),
        [a, b, c, d] => Some(u32::from_le_bytes([*a, *b, *c, *d])),
        _ => None,
    }
}

/// The id that a field's value is, as a parent's or a delegate's: the txid's 32 bytes, and the
/// index low byte first, in at most 3 bytes of which the last isn't 0, or in exactly 4 bytes.
/// `None` where the value is anything else (Ordinal Theory Handbook, "Inscriptions", "Provenance"
/// and "Delegate").
pub fn read_id(value: &[u8]) -> Option<InsId>
    ensures { result ≡ id_of_value value.now }
{
    let (txid, rest) = value.split_first_chunk::<32>()?;
    let index = read_index(rest)?;
    Some(InsId { txid: *txid, index })
}

/// The number that digits spell, below 2^32. `None` for anything else.
fn read_number(digits: &[u8]) -> Option<u32>
    ensures { result ≡ (if is_number digits.now then Some (digits_value 10 digits.now) else None) }
{
    if digits.is_empty() {
        return None;
    }
    let mut n: u32 = 0;
    for b in digits {
        if !b.is_ascii_digit() {
            return None;
        }
        n = n.checked_mul(10)?.checked_add(u32::from(*b - b'0'))?;
    }
    Some(n)
}

/// Writes bytes at a place.
fn write_at(into: &mut [u8], at: usize, bytes: &[u8])
    requires { at + length bytes.now ≤ length into.old }
    ensures front { take (at + length bytes.now) into.new ≡ take at into.old ++ bytes.now }
    ensures back { drop (at + length bytes.now) into.new ≡ drop (at + length bytes.now) into.old }
{
    into[at..at + bytes.len()].copy_from_slice(bytes);
}

/// The hex digits of a txid, from its last byte to its first.
fn txid_digits(txid: &[u8]) -> [u8; 64]
    requires { length txid.now ≡ 32 }
    ensures digits { result ≡ encode_lower (reverse txid.now) }
    ensures again { decode_sized result 32 ≡ Ok (reverse txid.now) }
{
    let mut reversed = [0; 32];
    reversed.copy_from_slice(txid);
    reversed.reverse();
    let mut digits = [0; 64];
    hex::encode_to_slice(reversed, &mut digits).unwrap();
    digits
}

/// Writes an id as text at the front: the txid in 64 lower-case hex digits, from its last byte to
/// its first, the letter `i`, and the index. The answer is the text's length, at most 75; what
/// stands behind it stays.
pub fn write_id(id: &InsId, into: &mut [u8; 75]) -> usize
    ensures len { result ≡ length (id_text id.now) }
    ensures text { take result into.new ≡ id_text id.now }
    ensures rest { drop result into.new ≡ drop result into.old }

    // the text reads as the id
    ensures again { id_of_text (id_text id.now) ≡ Some id.now }
{
    let digits = txid_digits(&id.txid);
    let mut buffer = Buffer::new();
    let index = buffer.format(id.index).as_bytes();
    write_at(into, 0, &digits);
    write_at(into, 64, b"i");
    write_at(into, 65, index);
    65 + index.len()
}

/// Whether the id has this text.
fn has_text(id: &InsId, text: &[u8]) -> bool
    ensures { result ≡ bytes_eq (id_text id.now) text.now }
{
    let mut written = [0; 75];
    let len = write_id(id, &mut written);
    let (front, _) = written.split_at(len);
    front == text
}

/// The id that a text is: the txid in 64 lower-case hex digits, from its last byte to its first,
/// the letter `i`, and the index, below 2^32, without sign or leading zero. `None` where the text
/// is anything else.
pub fn read_id_text(text: &[u8]) -> Option<InsId>
    ensures id { result ≡ id_of_text text.now }
    ensures text { IfSome result (λ id. id_text id ≡ text.now) }
{
    let (digits, rest) = text.split_first_chunk::<64>()?;
    let (_, number) = rest.split_first()?;
    let index = read_number(number)?;
    let mut txid = [0; 32];
    hex::decode_to_slice(*digits, &mut txid).ok()?;
    txid.reverse();
    let id = InsId { txid, index };
    if has_text(&id, text) { Some(id) } else { None }
}
