//! The line of a drill.

ghost use Rattle.std.specs.Prelude.{◌≡◌, IfOk, string_bytes};
ghost use Rattle.ox_sat.specs.Profiles.{profile_named};
ghost use Rattle.ox_sat.specs.declared.profiles.ProfileName.TheVariants.{Regtest};
ghost use Rattle.ox_index.specs.Live.{index_in, profile_in};
ghost use Rattle.ox_drill.specs.Line.{amounts_part, burned_in, counts_line, counts_of, drill_line};
ghost use Rattle.ox_drill.specs.Line.{minted_in, numbers_part, satoshis_part};

use ox_bytes::{Bytes, Memory};
use ox_index::Live;
use ox_model::{RuneAudit, View};
use std::alloc::{AllocError, Global};

/// What a drill counts.
#[derive(Clone, Copy, PartialEq, Eq)]
pub struct Counts {
    /// How many satoshis the blocks could claim.
    pub claimable: u64,
    /// How many of them are lost.
    pub lost: u64,
    /// How many inscriptions there are.
    pub inscriptions: u32,
    /// How many runes there are.
    pub runes: u32,
    /// What the mints of all runes gave.
    pub minted: u128,
    /// What was burned of all runes.
    pub burned: u128,
}

/// What the mints of all runes gave. `Memory` where it passes 128 bits.
fn minted(runes: &[RuneAudit]) -> Result<u128, Memory>
    ensures { IfOk result (λ sum. sum ≡ minted_in runes.now) }
{
    let mut sum: u128 = 0;
    for rune in runes {
        sum = sum.checked_add(rune.minted).ok_or(Memory)?;
    }
    Ok(sum)
}

/// What was burned of all runes. `Memory` where it passes 128 bits.
fn burned(runes: &[RuneAudit]) -> Result<u128, Memory>
    ensures { IfOk result (λ sum. sum ≡ burned_in runes.now) }
{
    let mut sum: u128 = 0;
    for rune in runes {
        sum = sum.checked_add(rune.burned).ok_or(Memory)?;
    }
    Ok(sum)
}

/// What an index of regtest counts. `Memory` where there is none for the audit, and where a sum
/// over all runes passes 128 bits.
fn count(live: &Live) -> Result<Counts, Memory>
    requires { profile_in live.now ≡ profile_named Regtest }
    ensures { IfOk result (λ counts. counts ≡ counts_of (index_in live.now)) }
{
    let audit = live.audit()?;
    Ok(Counts {
        claimable: audit.claimable,
        lost: audit.lost,
        inscriptions: live.inscriptions(),
        runes: live.runes(),
        minted: minted(audit.runes.as_slice())?,
        burned: burned(audit.runes.as_slice())?,
    })
}

/// The parts of the line.
fn satoshis_text(alloc: Global, n: u32, counts: &Counts) -> Result<String, AllocError>
    ensures { IfOk result (λ text. string_bytes text ≡ satoshis_part n counts.now) }
{
    let claimable = counts.claimable;
    let lost = counts.lost;
    Ok(format!(in alloc; "drill {n} claimable {claimable} lost {lost}")?)
}

fn numbers_text(alloc: Global, counts: &Counts) -> Result<String, AllocError>
    ensures { IfOk result (λ text. string_bytes text ≡ numbers_part counts.now) }
{
    let inscriptions = counts.inscriptions;
    let runes = counts.runes;
    Ok(format!(in alloc; "{inscriptions} runes {runes}")?)
}

fn amounts_text(alloc: Global, counts: &Counts) -> Result<String, AllocError>
    ensures { IfOk result (λ text. string_bytes text ≡ amounts_part counts.now) }
{
    let minted = counts.minted;
    let burned = counts.burned;
    Ok(format!(in alloc; "{minted} burned {burned}")?)
}

/// The line of these counts.
#[tactic(auto, unfolding(crate::specs::Line::counts_line))]
fn counts_text(alloc: Global, n: u32, counts: &Counts) -> Result<String, AllocError>
    ensures { IfOk result (λ text. string_bytes text ≡ counts_line n counts.now) }
{
    let satoshis = satoshis_text(alloc, n, counts)?;
    let numbers = numbers_text(alloc, counts)?;
    let amounts = amounts_text(alloc, counts)?;
    Ok(format!(in alloc; "{satoshis} inscriptions {numbers} minted {amounts}\n")?)
}

/// The line of a drill of n blocks, by the index then, with its line feed. `Memory` where there is
/// none for it, and where a sum over all runes passes 128 bits.
pub(crate) fn line_of(alloc: Global, n: u32, live: &Live) -> Result<Bytes, Memory>
    requires { profile_in live.now ≡ profile_named Regtest }
    ensures { IfOk result (λ line. line ≡ drill_line n (index_in live.now)) }
{
    let counts = count(live)?;
    let text = counts_text(alloc, n, &counts)?;
    Ok(Bytes::from_vec(text.into_bytes()))
}
