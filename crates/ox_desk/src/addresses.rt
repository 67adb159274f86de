//! Which address a request asks for.

ghost use Rattle.std.specs.Prelude.{◌≡◌, option_map};
ghost use Rattle.ox_desk.specs.Held.{script_asked};
ghost use Rattle.ox_desk.specs.Queries.{part_named};

use ox_asof::cut_at;
use ox_held::{SegwitScript, address_part, script_in};
use ox_http::Method;
use ox_sat::Profile;

/// The part of a path that stands for an address, where the path names no block.
pub(crate) fn part_named(path: &[u8]) -> Option<&[u8]>
    ensures { option_map (λ part. part.now) result ≡ part_named path.now }
{
    match cut_at(path) {
        Some(_) => None,
        None => address_part(path),
    }
}

/// The script whose outputs a reply tells, by the chain's profile and the part that stands for its
/// address; `None` where the method isn't GET, or the part is no segwit address of the chain.
pub(crate) fn script_asked(profile: &Profile, method: Method, part: &[u8]) -> Option<SegwitScript>
    ensures { result ≡ script_asked profile.now method part.now }
{
    match method {
        Method::Get => script_in(profile, part),
        Method::Post | Method::Other => None,
    }
}
