//! What the head of a file says of its chain.

ghost use Rattle.std.specs.Prelude.{◌≡◌};
ghost use Rattle.ox_sat.specs.Profiles.{IsProfile, name_at, profile_named};

use ox_gated::Head;
use ox_sat::{Profile, ProfileName, profile_of};

/// The profile by which the chain of a file with this head counts: that of the head's byte.
pub fn profile_of_head(head: &Head) -> Profile
    ensures value { result ≡ profile_named (name_at head.now.profile) }
    ensures known { IsProfile result }
{
    profile_of(ProfileName::of_byte(head.profile))
}
