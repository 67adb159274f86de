//! Which satoshis a height mints.

ghost use Rattle.std.specs.Prelude.{◌≡◌, ℕ, ◌+◌, ◌*◌, ◌/◌, ◌^◌, ◌<◌, ◌≤◌};
ghost use Rattle.ox_sat.specs.Profiles.{IsProfile};
ghost use Rattle.ox_sat.specs.Heights.{subsidy_at, first_at, Mints, height_minting};

use crate::profiles::Profile;

/// The satoshis that each block of the first epoch mints: fifty bitcoins.
const FIRST_SUBSIDY: u64 = 5_000_000_000;

/// The number of epochs, the stretches between two halvings, in which a block mints anything.
const EPOCHS: u64 = 33;

/// The satoshis that each block of an epoch mints.
fn subsidy_in(epoch: u64) -> u64
    ensures value { result ≡ 5000000000 / 2 ^ epoch }
    ensures most { result ≤ 5000000000 }
{
    if epoch < EPOCHS {
        FIRST_SUBSIDY >> epoch
    } else {
        0
    }
}

/// The satoshis that the block of this height mints, 0 from the 33rd halving on.
pub fn subsidy(p: &Profile, height: u64) -> u64
    requires { IsProfile p.now }
    ensures value { result ≡ subsidy_at p.now height }
    ensures most { result ≤ 5000000000 }
{
    subsidy_in(height / p.halving)
}

/// The first satoshi of this height: the sum of the subsidies of all heights below it. It is
/// reckoned by epochs, of which there are 33 at most.
pub fn first(p: &Profile, height: u64) -> u64
    requires { IsProfile p.now }
    ensures value { result ≡ first_at p.now height }
    ensures within { result ≤ p.now.supply }
    ensures small { result < 2 ^ 51 }
{
    let epoch = height / p.halving;
    let mut minted = 0;
    for whole in 0..epoch.min(EPOCHS) {
        minted += p.halving * subsidy_in(whole);
    }
    minted + height % p.halving * subsidy_in(epoch)
}

/// The height whose block mints this satoshi. It is found by epochs, of which there are 33 at most.
pub fn height_of(p: &Profile, sat: u64) -> u64
    requires known { IsProfile p.now }
    requires minted { sat < p.now.supply }
    ensures value { result ≡ height_minting p.now sat }
    ensures holds { Mints p.now result sat }
    ensures minting { result < 33 * p.now.halving }
{
    let mut epoch = 0;
    let mut rest = sat;
    while rest >= p.halving * subsidy_in(epoch) {
        rest -= p.halving * subsidy_in(epoch);
        epoch += 1;
    }
    epoch * p.halving + rest / subsidy_in(epoch)
}

/// No block mints anything from the 33rd halving on, and all blocks together mint the supply.
pub fn supply_is_minted(p: &Profile)
    requires { IsProfile p.now }
    ensures all { (height : ℕ) →
        33 * p.now.halving ≤ height → first_at p.now height ≡ p.now.supply }
    ensures most { (height : ℕ) → first_at p.now height ≤ p.now.supply }
{
    let _supply = p.supply;
}

/// A later height never begins at a smaller satoshi.
pub fn first_never_falls(p: &Profile)
    requires { IsProfile p.now }
    ensures { (low high : ℕ) → low ≤ high → first_at p.now low ≤ first_at p.now high }
{
    let _supply = p.supply;
}

/// A satoshi is minted at one height, which is the one that `height_of` answers.
pub fn holds_one_height(p: &Profile)
    requires { IsProfile p.now }
    ensures { (height sat : ℕ) → Mints p.now height sat → height ≡ height_minting p.now sat }
{
    let _supply = p.supply;
}
