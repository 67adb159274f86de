//! Scripts with outpoints, in their order.

ghost use Rattle.std.specs.Prelude.{◌≡◌, ◌==◌, [], ◌∷◌, ◌++◌, Some, refl, IfOk};
ghost use Rattle.std.specs.Ordering.{nat_cmp};
ghost use Rattle.std.specs.Cmp.{on_equiv, on_po, partial_equiv_from_equiv};
ghost use Rattle.std.specs.Cmp.Lexicographic.{slice_cmp, texts_po, texts_ties};
ghost use Rattle.std.specs.Cmp.Lexicographic.{nat_list_eq_equiv, pointwise};
ghost use Rattle.ox_holders.specs.Keys.{first_of};
ghost use Rattle.ox_holders.specs.declared.key.Lock.{Lock};
ghost use Rattle.std.specs.Cmp.Lexicographic.{nat_list_cmp_total};
ghost use Rattle.std.specs.Cmp.{on_total};

use ox_block::{OutPoint, Script};
use ox_bytes::{Bytes, Memory};
use std::alloc::Global;
use std::cmp::Ordering;

/// A script, which is ordered by its bytes.
#[derive(Drop)]
pub(crate) struct Lock {
    pub(crate) script: Script,
}

impl PartialEq for Lock {
    ghost eq = { λ a b. pointwise ◌==◌ a.script b.script };

    ghost laws = { partial_equiv_from_equiv (on_equiv (λ (lock : Lock). lock.script)
        nat_list_eq_equiv) };

    fn eq(&self, other: &Lock) -> bool {
        self.script.as_slice() == other.script.as_slice()
    }
}

impl Eq for Lock {
    ghost laws = { on_equiv (λ (lock : Lock). lock.script) nat_list_eq_equiv };
}

impl PartialOrd for Lock {
    ghost partial_cmp = { λ a b. Some (slice_cmp nat_cmp a.script b.script) };

    ghost laws = { on_po (λ (lock : Lock). lock.script) texts_po };

    fn partial_cmp(&self, other: &Lock) -> Option<Ordering> {
        Some(self.cmp(other))
    }
}

impl Ord for Lock {
    ghost cmp = { λ a b. slice_cmp nat_cmp a.script b.script };

    ghost total = { on_total (λ (lock : Lock). lock.script) nat_list_cmp_total };

    ghost matches_partial_cmp = { λ a b. refl };

    ghost matches_eq = { λ a b. texts_ties a.script b.script };

    fn cmp(&self, other: &Lock) -> Ordering {
        self.script.as_slice().cmp(&other.script.as_slice())
    }
}

/// A script and the outpoint of an output that has it. In their order, scripts come first, and
/// no outpoint stands before the outpoints of a script.
#[derive(PartialEq, Eq, PartialOrd, Ord, Drop)]
pub(crate) struct Key {
    pub(crate) lock: Lock,
    pub(crate) at: Option<OutPoint>,
}

/// An outpoint, or none, of a script. `Memory` where there is none for the script, which is so for
/// a long one alone.
pub(crate) fn key_of(alloc: Global, script: &[u8], at: Option<OutPoint>) -> Result<Key, Memory>
    ensures { IfOk result (λ key. key ≡ record { lock = record { script = script.now }; at = at }) }
{
    let script = Script::copy(alloc, script)?;
    Ok(Key {
        lock: Lock { script },
        at,
    })
}

/// The first key of the script that comes next after a script, which is this one and a zero.
/// `Memory` where there is none for it.
pub(crate) fn key_behind(alloc: Global, script: &[u8]) -> Result<Key, Memory>
    ensures { IfOk result (λ key. key ≡ first_of (script.now ++ 0 ∷ [])) }
{
    let mut next = Bytes::copy(alloc, script)?;
    next.append(&[0])?;
    key_of(alloc, next.as_slice(), None)
}
