//! Why a command is refused, and the line that says so.

ghost use Rattle.std.specs.Prelude.{◌≡◌, ◌++◌, IfOk, codes, decimal, string_bytes};
ghost use Rattle.ox_rules.specs.Text.{hash_text as printed, outpoint_text as printed_outpoint};
ghost use Rattle.ox_rules.specs.Text.{pair_text as printed_pair, refusal_line};

use ox_block::OutPoint;
use ox_bytes::{Bytes, Memory};
use std::alloc::{AllocError, Global};

/// Why a command is refused. Nothing changes then. Where several causes stand together, the first
/// of this list is reported, but that of `UnknownOutput`, `Overspend` and `Overclaim` the one of
/// the earliest transaction comes first.
#[derive(Clone, Copy, Debug, PartialEq, Eq)]
pub enum Refusal {
    /// The line of the command is longer than that of any block.
    TooLong,
    /// The line is no command.
    Syntax,
    /// The bytes are no block: the place of the first field at fault.
    Malformed {
        /// How many bytes stand before the fault.
        at: usize,
    },
    /// The block would stand above the last height that is indexed.
    ChainEnd {
        /// The block's height.
        height: u64,
    },
    /// The block names another block before it than the newest; both hashes in serialized order,
    /// and zeros where there is none.
    Unlinked {
        /// The hash that the block's header names.
        have: [u8; 32],
        /// The newest block's hash, or 32 zero bytes where there is none.
        want: [u8; 32],
    },
    /// The header's root isn't that of the transactions.
    BadRoot {
        /// The root that the block's header has.
        have: [u8; 32],
        /// The root of its transactions' ids.
        want: [u8; 32],
    },
    /// The first transaction is no coinbase, or another one has an input that names no output.
    Coinbase {
        /// The place of the first such transaction in the block.
        tx: u32,
    },
    /// The block's commitment to its witnesses fails.
    BadWitness,
    /// An input names an output that isn't there.
    UnknownOutput {
        /// The place of the transaction in the block.
        tx: u32,
        /// The place of the input in the transaction.
        input: u32,
        /// The output that it names.
        at: OutPoint,
    },
    /// A transaction's outputs have more satoshis than its inputs.
    Overspend {
        /// The place of the transaction in the block.
        tx: u32,
        /// How many satoshis its inputs have.
        inputs: u64,
        /// How many its outputs ask for.
        outputs: u64,
    },
    /// The coinbase's outputs have more satoshis than subsidy and fees.
    Overclaim {
        /// How many satoshis the coinbase may claim.
        claimable: u64,
        /// How many its outputs ask for.
        claimed: u64,
    },
    /// No block is kept that could be disconnected.
    Depth,
}

/// The digits by which a hash is printed: its bytes in reversed order, each as two lower-case hex
/// digits.
#[tactic(auto, unfolding(crate::specs::Text::hash_text))]
pub fn hash_digits(hash: &[u8; 32]) -> [u8; 64]
    ensures { result ≡ printed hash.now }
{
    let mut reversed = *hash;
    reversed.reverse();
    let mut digits = [0; 64];
    match hex::encode_to_slice(&reversed[..], &mut digits) {
        Ok(()) => digits,
        Err(_) => unreachable!(),
    }
}

/// A hash as it is printed: its bytes in reversed order, in lower-case hex digits.
#[tactic(auto, unfolding(crate::specs::Text::hash_text))]
pub fn hash_text(alloc: Global, hash: &[u8; 32]) -> Result<String, AllocError>
    ensures { IfOk result (λ text. string_bytes text ≡ printed hash.now) }
{
    let mut reversed = *hash;
    reversed.reverse();
    hex::encode(alloc, &reversed[..])
}

/// An outpoint as it is printed: the transaction's id, a colon and the index.
#[tactic(auto, unfolding(crate::specs::Text::outpoint_text))]
pub fn outpoint_text(alloc: Global, at: &OutPoint) -> Result<String, AllocError>
    ensures { IfOk result (λ text. string_bytes text ≡ printed_outpoint at.now) }
{
    let txid = hash_text(alloc, &at.txid.0)?;
    let index = at.index;
    Ok(format!(in alloc; "{txid}:{index}")?)
}

/// The line of a block that follows another than the newest.
fn unlinked_line(alloc: Global, have: &[u8; 32], want: &[u8; 32]) -> Result<String, AllocError>
    ensures { IfOk result
        (λ text. string_bytes text
        ≡ codes "refused 5 " ++ printed have.now ++ codes " " ++ printed want.now ++ codes "\n") }
{
    let have = hash_text(alloc, have)?;
    let want = hash_text(alloc, want)?;
    Ok(format!(in alloc; "refused 5 {have} {want}\n")?)
}

/// The line of a block with another root than its transactions.
fn bad_root_line(alloc: Global, have: &[u8; 32], want: &[u8; 32]) -> Result<String, AllocError>
    ensures { IfOk result
        (λ text. string_bytes text
        ≡ codes "refused 6 " ++ printed have.now ++ codes " " ++ printed want.now ++ codes "\n") }
{
    let have = hash_text(alloc, have)?;
    let want = hash_text(alloc, want)?;
    Ok(format!(in alloc; "refused 6 {have} {want}\n")?)
}

/// The line of an input that names an output that isn't there.
fn unknown_output_line(
    alloc: Global,
    tx: u32,
    input: u32,
    at: &OutPoint,
) -> Result<String, AllocError>
    ensures { IfOk result
        (λ text. string_bytes text
        ≡ codes "refused 8 " ++ decimal tx ++ codes " " ++ decimal input ++ codes " "
        ++ printed_outpoint at.now ++ codes "\n") }
{
    let at = outpoint_text(alloc, at)?;
    Ok(format!(in alloc; "refused 8 {tx} {input} {at}\n")?)
}

/// Two numbers with a space between.
#[tactic(auto, unfolding(crate::specs::Text::pair_text))]
fn pair_text(alloc: Global, first: u64, second: u64) -> Result<String, AllocError>
    ensures { IfOk result (λ text. string_bytes text ≡ printed_pair first second) }
{
    Ok(format!(in alloc; "{first} {second}")?)
}

/// The line of a transaction whose outputs have more than its inputs.
fn overspend_line(alloc: Global, tx: u32, inputs: u64, outputs: u64) -> Result<String, AllocError>
    ensures { IfOk result
        (λ text. string_bytes text
        ≡ codes "refused 9 " ++ decimal tx ++ codes " " ++ printed_pair inputs outputs
        ++ codes "\n") }
{
    let values = pair_text(alloc, inputs, outputs)?;
    Ok(format!(in alloc; "refused 9 {tx} {values}\n")?)
}

/// The line of a coinbase that has more than it may claim.
fn overclaim_line(alloc: Global, claimable: u64, claimed: u64) -> Result<String, AllocError>
    ensures { IfOk result
        (λ text. string_bytes text
        ≡ codes "refused 10 " ++ printed_pair claimable claimed ++ codes "\n") }
{
    let values = pair_text(alloc, claimable, claimed)?;
    Ok(format!(in alloc; "refused 10 {values}\n")?)
}

impl Refusal {
    /// The line that is shown: `refused`, the refusal's number and its values with single spaces,
    /// and a line feed. Hashes are printed in reversed order.
    pub fn line(&self, alloc: Global) -> Result<Bytes, Memory>
        ensures { IfOk result (λ line. line ≡ refusal_line self.now) }
    {
        let text = self.text(alloc)?;
        Ok(Bytes::from_vec(text.into_bytes()))
    }

    #[tactic(auto, unfolding(crate::specs::Text::refusal_line))]
    fn text(&self, alloc: Global) -> Result<String, AllocError>
        ensures { IfOk result (λ text. string_bytes text ≡ refusal_line self.now) }
    {
        match self {
            Refusal::TooLong => Ok(String::from_str(alloc, "refused 2\n")?),
            Refusal::Syntax => Ok(String::from_str(alloc, "refused 1\n")?),
            Refusal::Malformed { at } => Ok(format!(in alloc; "refused 3 {at}\n")?),
            Refusal::ChainEnd { height } => Ok(format!(in alloc; "refused 4 {height}\n")?),
            Refusal::Unlinked { have, want } => unlinked_line(alloc, have, want),
            Refusal::BadRoot { have, want } => bad_root_line(alloc, have, want),
            Refusal::Coinbase { tx } => Ok(format!(in alloc; "refused 7 {tx}\n")?),
            Refusal::BadWitness => Ok(String::from_str(alloc, "refused 12\n")?),
            Refusal::UnknownOutput { tx, input, at } => unknown_output_line(alloc, *tx, *input, at),
            Refusal::Overspend {
                tx,
                inputs,
                outputs,
            } => overspend_line(alloc, *tx, *inputs, *outputs),
            Refusal::Overclaim { claimable, claimed } => {
                overclaim_line(alloc, *claimable, *claimed)
            }
            Refusal::Depth => Ok(String::from_str(alloc, "refused 11\n")?),
        }
    }
}
