//! Paths that name an address.

ghost use Rattle.std.specs.Prelude.{◌≡◌, option_map};
ghost use Rattle.ox_address.specs.Address.{IsHrp};
ghost use Rattle.ox_address.specs.Spelled.{script_in};
ghost use Rattle.ox_held.specs.Paths.{address_part, hrp_in, hrp_of, part_behind};
ghost use Rattle.ox_routes.specs.Table.{is_part};

use crate::script::SegwitScript;
use ox_address::read;
use ox_sat::{Profile, ProfileName};

/// What a path that names an address begins with.
const FRONT: &[u8] = b"/address/";

/// The human-readable part of the addresses of the chain with a name.
fn hrp_of(name: ProfileName) -> &'static [u8]
    ensures exact { result.now ≡ hrp_of name }
    ensures lawful { IsHrp result.now }
{
    match name {
        ProfileName::Mainnet => b"bc",
        ProfileName::Regtest => b"bcrt",
        ProfileName::Lab => b"lab",
    }
}

/// The human-readable part of a chain's addresses: `bc` on the main chain (BIP 173, "Segwit address
/// format"), `bcrt` on regtest (Bitcoin Core), and `lab` on lab, this project's own.
pub fn hrp_in(p: &Profile) -> &'static [u8]
    ensures exact { result.now ≡ hrp_in p.now }
    ensures lawful { IsHrp result.now }
{
    hrp_of(ProfileName::of_byte(p.byte))
}

/// Whether these bytes are one part of a path: one or more, without a slash.
fn is_part(bytes: &[u8]) -> bool
    ensures { result ≡ is_part bytes.now }
{
    !bytes.is_empty() && !bytes.contains(&b'/')
}

/// The part of a path that is behind `/address/`, if there is one.
fn part_behind(path: &[u8]) -> Option<&[u8]>
    ensures { option_map (λ part. part.now) result ≡ part_behind path.now }
{
    let part = path.strip_prefix(FRONT)?;
    if is_part(part) { Some(part) } else { None }
}

/// The part of a path that stands for an address: what is behind `/address/`, where that is one or
/// more bytes without a slash, and the path is UTF-8. It may be no address all the same.
pub fn address_part(path: &[u8]) -> Option<&[u8]>
    ensures { option_map (λ part. part.now) result ≡ address_part path.now }
{
    match str::from_utf8(path) {
        Ok(_) => part_behind(path),
        Err(_) => None,
    }
}

/// The script whose address a text is on a chain, lower-case or in capitals (BIP 173, BIP 350);
/// `None` exactly where it is no segwit script's.
pub fn script_in(p: &Profile, text: &[u8]) -> Option<SegwitScript>
    ensures { result ≡ script_in (hrp_in p.now) text.now }
{
    let mut bytes = [0; 42];
    match read(hrp_in(p), text, &mut bytes) {
        Ok(len) => Some(SegwitScript { bytes, len }),
        Err(_) => None,
    }
}
