//! Names of satoshis.

ghost use Rattle.std.specs.Prelude.{◌≡◌, ℕ, ◌<◌, ◌≤◌, List, length, take, drop};
ghost use Rattle.ox_sat.specs.Profiles.{IsProfile};
ghost use Rattle.ox_sat.specs.Names.{name_of, IsNameOf};

use crate::profiles::Profile;

/// Writes the name of this satoshi into the front of `into`, and answers its length. What stands
/// behind the name stays.
pub fn write_name(p: &Profile, sat: u64, into: &mut [u8; 11]) -> usize
    requires known { IsProfile p.now }
    requires minted { sat < p.now.supply }
    ensures within { result ≤ 11 }
    ensures name { take result into.new ≡ name_of p.now sat }
    ensures rest { drop result into.new ≡ drop result into.old }
{
    let mut len = 0;
    let mut left = p.supply - sat;
    while left > 0 {
        into[len] = b'a' + ((left - 1) % 26) as u8;
        left = (left - 1) / 26;
        len += 1;
    }
    into[..len].reverse();
    len
}

/// Each satoshi's name is one to eleven letters that write its distance from the supply, and no
/// other letters do.
pub fn names_are_letters(p: &Profile)
    requires { IsProfile p.now }
    ensures letters { (sat : ℕ) → sat < p.now.supply → IsNameOf p.now sat (name_of p.now sat) }
    ensures only { (sat : ℕ) (text : List ℕ) → IsNameOf p.now sat text → text ≡ name_of p.now sat }
{
    let _supply = p.supply;
}
