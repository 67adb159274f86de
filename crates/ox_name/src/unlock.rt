//! Which names are free at a height.

ghost use Rattle.std.specs.Prelude.{◌≡◌, ◌≢◌, ◌<◌, ◌≤◌, ◌^◌, ◌-◌, ◌++◌, ◌⊎◌, ◌↔◌, IsTrue, length};
ghost use Rattle.std.specs.Prelude.{take, drop, slice_index};
ghost use Rattle.ox_name.specs.Name.{first_of};
ghost use Rattle.ox_name.specs.Unlock.{least_name, least_after, NeverRises, first_reserved};
ghost use Rattle.ox_name.specs.Unlock.{reserved_name, commitment_of, bytes_value};

/// The number of the name of so many letters A and one more.
const FIRST: [u128; 13] = [
    0,
    26,
    702,
    18_278,
    475_254,
    12_356_630,
    321_272_406,
    8_353_082_582,
    217_180_147_158,
    5_646_683_826_134,
    146_813_779_479_510,
    3_817_158_266_467_286,
    99_246_114_928_149_462,
];

/// The least of the names that are kept for etchings without a name: that of 27 letters A.
const RESERVED: u128 = 6_402_364_363_415_443_603_228_541_259_936_211_926;

/// The number of the first name that has `more` letters more than one.
fn shortest(more: usize) -> u128
    requires { more ≤ 12 }
    ensures { result ≡ first_of more }
{
    FIRST[more]
}

/// The least name that may be etched at `height`, where names open from `start` on and the least
/// one loses a letter in each `interval`. Up to the block before `start` it is that of 13 letters
/// A, and from 12 intervals on 0.
pub fn minimum(start: u64, interval: u64, height: u64) -> u128
    ensures { result ≡ least_name start interval height }
{
    let next = height as u128 + 1;
    let start = start as u128;
    if next < start {
        return shortest(12);
    }
    least_after(interval as u128, next - start)
}

/// The least name never rises with the height, and where an interval begins it is the first name of
/// its length, of one letter less than in the interval before.
pub fn minimum_never_rises()
    ensures { NeverRises }
{}

/// The least name where `passed` heights are open at the next height.
fn least_after(interval: u128, passed: u128) -> u128
    requires { interval < 2 ^ 64 }
    ensures { result ≡ least_after interval passed }
{
    if passed >= 12 * interval {
        return 0;
    }
    let more = 12 - (passed / interval) as usize;
    let high = shortest(more);
    let low = shortest(more - 1);
    high - (high - low) * (passed % interval) / interval
}

/// Whether a name is kept for etchings without a name.
pub fn is_reserved(name: u128) -> bool
    ensures { IsTrue result ↔ (first_reserved ≤ name) }
{
    name >= RESERVED
}

/// The number of the name of an etching without one, by its height and the place of its
/// transaction.
pub fn reserved_name(height: u32, tx: u32) -> u128
    ensures { result ≡ reserved_name height tx }
{
    RESERVED + ((height as u128) << 32) + tx as u128
}

/// Writes the commitment to a name to the front of `into`, and answers how many bytes it has, from
/// 0 to 16: its number's bytes, the lowest first, without zeros at the end. The bytes behind stay.
pub fn commitment(name: u128, into: &mut [u8; 16]) -> usize
    ensures length { result ≡ length (commitment_of name) }
    ensures written { into.new ≡ commitment_of name ++ drop result into.old }

    ensures fits { result ≤ 16 }
    ensures value { bytes_value (take result into.new) ≡ name }
    ensures no_zero_at_end { (result ≡ 0) ⊎ (slice_index into.new (result - 1) ≢ 0) }
{
    let mut rest = name;
    let mut len = 0;
    while rest > 0 {
        into[len] = (rest % 256) as u8;
        rest /= 256;
        len += 1;
    }
    len
}
