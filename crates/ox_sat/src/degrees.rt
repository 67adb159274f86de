//! Degrees of satoshis.

ghost use Rattle.std.specs.Prelude.{◌≡◌, ℕ, ◌<◌};
ghost use Rattle.ox_sat.specs.Profiles.{IsProfile};
ghost use Rattle.ox_sat.specs.Degrees.{degree_at, rarity_by};

use crate::heights::{first, height_of};
use crate::profiles::Profile;

/// A satoshi's place in four circles, written `hour°minute′second″third‴`.
#[derive(Clone, Copy, Debug, PartialEq, Eq)]
pub struct Degree {
    /// How many whole cycles came before: the height divided by the profile's cycle.
    pub hour: u64,
    /// The block's place in its halving epoch.
    pub minute: u64,
    /// The block's place in its difficulty period.
    pub second: u64,
    /// The satoshi's place in its block.
    pub third: u64,
}

/// How rare a satoshi is, the most common first.
#[derive(Clone, Copy, Debug, PartialEq, Eq)]
pub enum Rarity {
    /// Not the first satoshi of its block.
    Common,
    /// The first satoshi of its block.
    Uncommon,
    /// The first satoshi of a difficulty period.
    Rare,
    /// The first satoshi of a halving epoch.
    Epic,
    /// The first satoshi of a cycle.
    Legendary,
    /// The first satoshi of all.
    Mythic,
}

/// The degree of this satoshi.
pub fn degree_of(p: &Profile, sat: u64) -> Degree
    requires known { IsProfile p.now }
    requires minted { sat < p.now.supply }
    ensures { result ≡ degree_at p.now sat }
{
    let height = height_of(p, sat);
    Degree {
        hour: height / p.cycle,
        minute: height % p.halving,
        second: height % p.period,
        third: sat - first(p, height),
    }
}

/// The rarity of a satoshi of this degree.
pub fn rarity_of(d: &Degree) -> Rarity
    ensures { result ≡ rarity_by d.now }
{
    match (d.hour, d.minute, d.second, d.third) {
        (0, 0, 0, 0) => Rarity::Mythic,
        (_, 0, 0, 0) => Rarity::Legendary,
        (_, 0, _, 0) => Rarity::Epic,
        (_, _, 0, 0) => Rarity::Rare,
        (_, _, _, 0) => Rarity::Uncommon,
        _ => Rarity::Common,
    }
}
