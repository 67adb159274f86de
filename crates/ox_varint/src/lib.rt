//! Numbers of 128 bits as LEB128, as a runestone's payload has them (Runes specification, "Integer
//! encoding").
#![tactic(auto)]

ghost use Rattle.std.specs.Prelude.{◌≡◌, ℕ, ◌+◌, ◌<◌, ◌≤◌, ◌^◌, ◌↔◌, List, ◌++◌, length, take};
ghost use Rattle.std.specs.Prelude.{drop, slice_index, All, IfOk, Ok, Err};
ghost use Rattle.ox_varint.specs.Varint.{IsVarint, IsShortest, GoesOn, varint_at, varint};
ghost use Rattle.ox_varint.specs.Varint.{ReadsBack};

/// Why no number stands at the front of some bytes.
#[derive(Clone, Copy, Debug, PartialEq, Eq)]
pub enum VarintFault {
    /// The bytes end before the number does: there are fewer than 19, and each has its top bit.
    Truncated,
    /// The number has more than 128 bits: 18 bytes have their top bit, and the nineteenth is above
    /// 3.
    Overflow,
}

/// The most bytes that a number may have.
pub const MAX_LEN: usize = 19;

/// The greatest byte in the nineteenth place: 18 groups of seven bits leave two of the 128.
const LAST_MAX: u8 = 3;

/// Reads the number at the front of `bytes`, and says how many bytes it takes, from 1 to 19. Any
/// bytes may follow it. A spelling that is longer than needed counts too, as `80 00` for 0.
///
/// Answers `Truncated` exactly where fewer than 19 bytes stand there and each has its top bit, and
/// `Overflow` exactly where 18 bytes have their top bit and the nineteenth is above 3.
pub fn read(bytes: &[u8]) -> Result<(u128, usize), VarintFault>
    ensures exact { result ≡ varint_at bytes.now }

    // What is read stands there, and what stands there is read.
    ensures length { IfOk result (λ found.
        (0 < found.1) × (found.1 ≤ length bytes.now) × (found.1 ≤ MAX_LEN)) }
    ensures found { IfOk result (λ found. IsVarint (take found.1 bytes.now) found.0) }
    ensures only { (text rest : List ℕ) (n : ℕ) →
        IsVarint text n → length text ≤ MAX_LEN → n < 2 ^ 128 →
        bytes.now ≡ text ++ rest → result ≡ Ok (n, length text) }

    ensures truncated { (result ≡ Err VarintFault.Truncated) ↔
        ((length bytes.now < MAX_LEN) × All GoesOn bytes.now) }
    ensures overflow { (result ≡ Err VarintFault.Overflow) ↔
        ((MAX_LEN ≤ length bytes.now) × All GoesOn (take 18 bytes.now)
        × (3 < slice_index bytes.now 18)) }
{
    read_all(bytes)
}

/// The loop of `read`.
fn read_all(bytes: &[u8]) -> Result<(u128, usize), VarintFault>
    ensures { result ≡ varint_at bytes.now }
{
    let mut value: u128 = 0;
    for (place, byte) in bytes.iter().enumerate() {
        if place == MAX_LEN - 1 && *byte > LAST_MAX {
            return Err(VarintFault::Overflow);
        }
        value += ((*byte % 128) as u128) << (7 * place);
        if *byte < 128 {
            return Ok((value, place + 1));
        }
    }
    Err(VarintFault::Truncated)
}

/// Writes `n` to the front of `into` in its shortest form, and answers how many bytes that took.
/// The bytes behind it stay.
pub fn write(n: u128, into: &mut [u8; 19]) -> usize
    ensures length { result ≡ length (varint n) }
    ensures written { into.new ≡ varint n ++ drop result into.old }

    ensures fits { result ≤ MAX_LEN }
    ensures spelled { IsVarint (take result into.new) n }
    ensures shortest { IsShortest (take result into.new) }
{
    write_all(n, into)
}

/// The loop of `write`.
fn write_all(n: u128, into: &mut [u8; 19]) -> usize
    ensures length { result ≡ length (varint n) }
    ensures written { into.new ≡ varint n ++ drop result into.old }
{
    let mut rest = n;
    let mut len = 0;
    while rest >= 128 {
        into[len] = (rest % 128) as u8 + 128;
        rest /= 128;
        len += 1;
    }
    into[len] = rest as u8;
    len + 1
}

/// The law of the two: what `write` writes `read` reads back with its length, whatever follows it.
pub fn reads_back()
    ensures { ReadsBack }
{}
