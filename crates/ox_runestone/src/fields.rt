//! From the values of tags to fields.

ghost use Rattle.std.specs.Prelude.{◌≡◌, ◌<◌, ◌≤◌, ◌^◌, List};
ghost use Rattle.std.specs.Option.{ForSome};
ghost use Rattle.ox_runestone.specs.Message.{Field};
ghost use Rattle.ox_runestone.specs.ValuesKept.{values_at, IsKeptOf};
ghost use Rattle.ox_runestone.specs.Fields.{
  flags_of,
  is_etching,
  has_terms,
  is_turbo,
  has_strange_flag,
  takes,
  field_of,
  mint_of,
  terms_of,
  etching_of,
  overflows,
  count_taken,
};
ghost use Rattle.ox_runestone.specs.FieldsKept.{firsts_in, mint_kept, supply_of, SaysWhatIsLeft};

use crate::message::{Fields, id_of};
use crate::stone::{Etching, RuneId, Terms};
use crate::tags::{
    AMOUNT, CAP, DIVISIBILITY, FLAGS, HEIGHT_END, HEIGHT_START, MINT, NAME, OFFSET_END,
    OFFSET_START, POINTER, PREMINE, SPACERS, SYMBOL, TERMS_FLAG, TURBO_FLAG,
};

/// A value below 2^64.
fn as_u64(value: Option<u128>) -> Option<u64>
    requires { ForSome value (λ v. v < 2 ^ 64) }
    ensures { result ≡ value }
{
    match value {
        Some(value) => Some(value as u64),
        None => None,
    }
}

/// A value below 2^32.
fn as_u32(value: Option<u128>) -> Option<u32>
    requires { ForSome value (λ v. v < 2 ^ 32) }
    ensures { result ≡ value }
{
    match value {
        Some(value) => Some(value as u32),
        None => None,
    }
}

/// What all mints and the premine give together, if that is an amount.
fn supply_of(etching: &Etching) -> Option<u128>
    ensures { result ≡ supply_of etching.now }
{
    let premine = etching.premine.unwrap_or(0);
    match etching.terms {
        Some(terms) => {
            let mintable = terms
                .cap
                .unwrap_or(0)
                .checked_mul(terms.amount.unwrap_or(0))?;
            premine.checked_add(mintable)
        }
        None => Some(premine),
    }
}

/// Whether more is etched than an amount can be.
pub(crate) fn overflows(etching: &Option<Etching>) -> bool
    ensures { result ≡ overflows etching.now }
{
    match etching {
        Some(etching) => supply_of(etching).is_none(),
        None => false,
    }
}

impl Fields {
    /// The first value of a tag.
    fn first(&self, tag: usize) -> Option<u128>
        requires { tag < 23 }
        ensures { result ≡ firsts_in self.now tag }
    {
        self.values[tag].first()
    }

    fn flags(&self) -> u128
        ensures { result ≡ flags_of (firsts_in self.now) }
    {
        self.first(FLAGS).unwrap_or(0)
    }

    fn is_etching(&self) -> bool
        ensures { result ≡ is_etching (firsts_in self.now) }
    {
        self.flags() % 2 == 1
    }

    fn has_terms(&self) -> bool
        ensures { result ≡ has_terms (firsts_in self.now) }
    {
        self.is_etching() && self.flags() / TERMS_FLAG % 2 == 1
    }

    fn is_turbo(&self) -> bool
        ensures { result ≡ is_turbo (firsts_in self.now) }
    {
        self.is_etching() && self.flags() / TURBO_FLAG % 2 == 1
    }

    /// Whether a flag isn't taken.
    pub(crate) fn has_strange_flag(&self) -> bool
        ensures { result ≡ has_strange_flag (firsts_in self.now) }
    {
        if self.is_etching() {
            self.flags() >= 8
        } else {
            self.flags() > 0
        }
    }

    /// Whether a tag's field takes a value.
    fn takes(&self, tag: usize, value: u128, outputs: u32) -> bool
        ensures { result ≡ takes (firsts_in self.now) outputs tag value }
    {
        match tag {
            FLAGS => true,
            NAME | PREMINE => self.is_etching(),
            CAP | AMOUNT => self.has_terms(),
            HEIGHT_START | HEIGHT_END | OFFSET_START | OFFSET_END => {
                self.has_terms() && value < 1 << 64
            }
            POINTER => value < u128::from(outputs),
            DIVISIBILITY => self.is_etching() && value <= 38,
            SPACERS => self.is_etching() && value < 1 << 27,
            SYMBOL => self.is_etching()
                && (value < 0xd800 || (0xe000 <= value && value <= 0x10ffff)),
            _ => false,
        }
    }

    /// The value that a tag's field takes.
    fn field(&self, tag: usize, outputs: u32) -> Option<u128>
        requires { tag < 23 }
        ensures { result ≡ field_of (firsts_in self.now) outputs tag }
    {
        match self.first(tag) {
            Some(value) if self.takes(tag, value, outputs) => Some(value),
            _ => None,
        }
    }

    /// The rune that is minted.
    pub(crate) fn mint(&self) -> Option<RuneId>
        ensures { result ≡ mint_kept self.now }
    {
        let values = &self.values[MINT];
        id_of(values.first()?, values.second()?)
    }

    /// The output that gets what is left.
    pub(crate) fn pointer(&self, outputs: u32) -> Option<u32>
        ensures { result ≡ field_of (firsts_in self.now) outputs 22 }
    {
        as_u32(self.field(POINTER, outputs))
    }

    fn terms(&self) -> Option<Terms>
        ensures { result ≡ terms_of (firsts_in self.now) }
    {
        if !self.has_terms() {
            return None;
        }
        Some(Terms {
            amount: self.field(AMOUNT, 0),
            cap: self.field(CAP, 0),
            height_start: as_u64(self.field(HEIGHT_START, 0)),
            height_end: as_u64(self.field(HEIGHT_END, 0)),
            offset_start: as_u64(self.field(OFFSET_START, 0)),
            offset_end: as_u64(self.field(OFFSET_END, 0)),
        })
    }

    fn divisibility(&self) -> Option<u8>
        ensures { result ≡ field_of (firsts_in self.now) 0 1 }
    {
        match self.field(DIVISIBILITY, 0) {
            Some(value) => Some(value as u8),
            None => None,
        }
    }

    fn symbol(&self) -> Option<char>
        ensures { result ≡ field_of (firsts_in self.now) 0 5 }
    {
        match as_u32(self.field(SYMBOL, 0)) {
            Some(code) => char::from_u32(code),
            None => None,
        }
    }

    /// The rune that is etched.
    pub(crate) fn etching(&self) -> Option<Etching>
        ensures { result ≡ etching_of (firsts_in self.now) }
    {
        if !self.is_etching() {
            return None;
        }
        Some(Etching {
            name: self.field(NAME, 0),
            spacers: as_u32(self.field(SPACERS, 0)),
            divisibility: self.divisibility(),
            symbol: self.symbol(),
            premine: self.field(PREMINE, 0),
            terms: self.terms(),
            turbo: self.is_turbo(),
        })
    }

    /// How many values of a tag its field takes.
    fn count_taken(&self, tag: usize, outputs: u32) -> usize
        requires { tag < 23 }
        ensures count { result ≡
            count_taken (firsts_in self.now) (mint_kept self.now) outputs tag }
        ensures small { result ≤ 2 }
    {
        if tag == MINT {
            if self.mint().is_some() { 2 } else { 0 }
        } else if self.field(tag, outputs).is_some() {
            1
        } else {
            0
        }
    }

    /// Whether a value of an even tag isn't taken.
    pub(crate) fn leaves_even(&self, outputs: u32) -> bool
        ensures { SaysWhatIsLeft self.now outputs result }
    {
        if self.strange {
            return true;
        }
        for half in 0..12 {
            let tag = 2 * half;
            if self.values[tag].outnumber(self.count_taken(tag, outputs)) {
                return true;
            }
        }
        false
    }
}
