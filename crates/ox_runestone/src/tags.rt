//! The tags of a runestone's fields, and the bits of its flags (Runes specification, "Fields").

/// The edicts follow.
pub(crate) const BODY: usize = 0;

/// How many decimals an amount has.
pub(crate) const DIVISIBILITY: usize = 1;

/// The flags.
pub(crate) const FLAGS: usize = 2;

/// The spacers of the name.
pub(crate) const SPACERS: usize = 3;

/// The number of the name.
pub(crate) const NAME: usize = 4;

/// The currency symbol.
pub(crate) const SYMBOL: usize = 5;

/// What the etching itself gives.
pub(crate) const PREMINE: usize = 6;

/// How many mints there may be.
pub(crate) const CAP: usize = 8;

/// What a mint gives.
pub(crate) const AMOUNT: usize = 10;

/// The first height that is open.
pub(crate) const HEIGHT_START: usize = 12;

/// The first height that is closed again.
pub(crate) const HEIGHT_END: usize = 14;

/// The first height that is open, counted from the etching's.
pub(crate) const OFFSET_START: usize = 16;

/// The first height that is closed again, counted from the etching's.
pub(crate) const OFFSET_END: usize = 18;

/// The rune that is minted: two values.
pub(crate) const MINT: usize = 20;

/// The output that gets what the edicts leave.
pub(crate) const POINTER: usize = 22;

/// There is an etching.
pub(crate) const ETCHING_FLAG: u128 = 1;

/// The etching has terms of minting.
pub(crate) const TERMS_FLAG: u128 = 2;

/// The rune follows later changes of the protocol.
pub(crate) const TURBO_FLAG: u128 = 4;
