//! Amounts with a decimal point.

ghost use Rattle.std.specs.Prelude.{◌≡◌, ◌<◌, ◌≤◌, ◌++◌, ◌^◌, length, take, drop};
ghost use Rattle.std.specs.Fmt.{decimal};
ghost use Rattle.ox_name.specs.Amount.{amount_text, SaysAmount};

use crate::letters::turn_front;

/// Writes a number in decimals to the front of `into`, and answers how many digits there are.
fn write_whole(whole: u128, into: &mut [u8; 41]) -> usize
    ensures length { result ≡ length (decimal whole) }
    ensures written { into.new ≡ decimal whole ++ drop result into.old }
{
    let mut rest = whole;
    let mut len = 0;
    while rest >= 10 {
        into[len] = b'0' + (rest % 10) as u8;
        rest /= 10;
        len += 1;
    }
    into[len] = b'0' + rest as u8;
    len += 1;
    turn_front(into, len);
    len
}

/// Writes an amount with `divisibility` decimals to the front of `into`, and answers how many bytes
/// that took. Zeros at the end of the decimals are left out, and the point where no decimal is
/// left. The bytes behind stay.
pub fn write_amount(amount: u128, divisibility: u8, into: &mut [u8; 41]) -> usize
    requires { divisibility ≤ 38 }
    ensures length { result ≡ length (amount_text amount divisibility) }
    ensures written { into.new ≡ amount_text amount divisibility ++ drop result into.old }
    ensures fits { result ≤ 41 }
    ensures says { SaysAmount amount divisibility (take result into.new) }
{
    let mut unit = 10u128.pow(divisibility as u32);
    let mut part = amount % unit;
    let mut len = write_whole(amount / unit, into);
    if part == 0 {
        return len;
    }
    into[len] = b'.';
    len += 1;
    while part > 0 {
        unit /= 10;
        into[len] = b'0' + (part / unit) as u8;
        part %= unit;
        len += 1;
    }
    len
}
