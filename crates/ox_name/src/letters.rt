//! Letters as the digits of a number.

ghost use Rattle.std.specs.Prelude.{◌≡◌, ◌≤◌, ◌++◌, length, take, drop, reverse};
ghost use Rattle.ox_name.specs.Name.{IsName, number_of, name_of, AreOneToOne};

/// Turns the first `len` bytes round.
pub(crate) fn turn_front(into: &mut [u8], len: usize)
    requires { len ≤ length into.old }
    ensures { into.new ≡ reverse (take len into.old) ++ drop len into.old }
{
    into[..len].reverse();
}

/// Writes the name of the number `name` to the front of `into`, letters A to Z, and answers how
/// many there are, from 1 to 28. The bytes behind them stay.
pub fn write_name(name: u128, into: &mut [u8; 28]) -> usize
    ensures length { result ≡ length (name_of name) }
    ensures written { into.new ≡ name_of name ++ drop result into.old }

    ensures fits { result ≤ 28 }
    ensures letters { IsName (take result into.new) }
    ensures number { number_of (take result into.new) ≡ name }
{
    let mut rest = name;
    let mut len = 0;
    while rest >= 26 {
        into[len] = b'A' + (rest % 26) as u8;
        rest = rest / 26 - 1;
        len += 1;
    }
    into[len] = b'A' + rest as u8;
    len += 1;
    turn_front(into, len);
    len
}

/// The law of names: each number of 128 bits has a name, which is its only one.
pub fn names_are_one_to_one()
    ensures { AreOneToOne }
{}
