//! What a runestone says.

ghost use Rattle.std.specs.Prelude.{◌+◌, ◌*◌, ◌%◌, ◌^◌};

use ox_bytes::List;
use ox_shards::Sharded;

/// The id of a rune: the height of the block that etched it and the place of the transaction in
/// that block.
#[derive(Clone, Copy, Debug, Default, PartialEq, Eq, PartialOrd, Ord)]
pub struct RuneId {
    /// The height of the block.
    pub block: u64,
    /// The place of the transaction, the coinbase's being 0.
    pub tx: u32,
}

/// By the place of the transaction and the height.
impl Sharded for RuneId {
    ghost use Rattle.ox_shards.specs.Laws.{numbers_alike};

    ghost spread = { λ id. (id.block * 2 ^ 12 % 2 ^ 64 + id.tx) % 2 ^ 64 };

    fn spread(&self) -> u64 {
        self.block
            .wrapping_mul(4_096)
            .wrapping_add(u64::from(self.tx))
    }

    ghost alike = { λ a b. numbers_alike
        (λ block tx. (block * 2 ^ 12 % 2 ^ 64 + tx) % 2 ^ 64) a.block b.block a.tx b.tx };

    ghost tag = { λ id. id.block % 2 ^ 32 };

    fn tag(&self) -> u32 {
        (self.block % (1 << 32)) as u32
    }

    ghost same_tag = { λ a b. numbers_alike (λ block _. block % 2 ^ 32)
        a.block b.block a.tx b.tx };
}

/// The terms on which a rune is minted.
#[derive(Clone, Copy, Debug, PartialEq, Eq)]
pub struct Terms {
    /// What a mint gives.
    pub amount: Option<u128>,
    /// How many mints there may be.
    pub cap: Option<u128>,
    /// The first height that is open.
    pub height_start: Option<u64>,
    /// The first height that is closed again.
    pub height_end: Option<u64>,
    /// The first height that is open, counted from the etching's.
    pub offset_start: Option<u64>,
    /// The first height that is closed again, counted from the etching's.
    pub offset_end: Option<u64>,
}

/// The etching of a rune.
#[derive(Clone, Copy, Debug, PartialEq, Eq)]
pub struct Etching {
    /// The number of the name. Without one the rune gets a reserved name.
    pub name: Option<u128>,
    /// The spacers, below 2^27: bit i for the gap behind the letter at place i.
    pub spacers: Option<u32>,
    /// How many decimals an amount has, at most 38.
    pub divisibility: Option<u8>,
    /// The currency symbol.
    pub symbol: Option<char>,
    /// What the etching itself gives.
    pub premine: Option<u128>,
    /// The terms of minting. Without them nothing is minted.
    pub terms: Option<Terms>,
    /// Whether the rune follows later changes of the protocol.
    pub turbo: bool,
}

/// An instruction to allocate an amount of a rune to an output.
#[derive(Clone, Copy, Debug, PartialEq, Eq)]
pub struct Edict {
    /// The rune. Block 0, transaction 0 is the rune that is etched here.
    pub id: RuneId,
    /// The amount; 0 is all that is left.
    pub amount: u128,
    /// The output's place; the number of outputs is all of them.
    pub output: u32,
}

/// The edicts of a runestone, in order.
pub type Edicts = List<Edict>;

/// A well-formed message.
#[derive(Debug, Drop)]
pub struct Runestone {
    /// The rune that is etched.
    pub etching: Option<Etching>,
    /// The rune that is minted.
    pub mint: Option<RuneId>,
    /// The place of the output that gets what the edicts leave.
    pub pointer: Option<u32>,
    /// The edicts.
    pub edicts: Edicts,
}

/// What a runestone's script deciphers as.
#[derive(Debug, Drop)]
pub enum Artifact {
    /// A well-formed message.
    Stone(Runestone),
    /// A malformed one, which burns: of it the mint counts, and the name of its etching.
    Cenotaph {
        /// The rune that is minted.
        mint: Option<RuneId>,
        /// The name of the rune that is etched.
        name: Option<u128>,
    },
}
