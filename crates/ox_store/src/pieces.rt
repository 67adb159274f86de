//! The body of a file of version 3, as it comes in pieces.

ghost use Rattle.std.specs.Prelude.{ℕ, List};

use ox_bytes::Bytes;
use ox_gated::{Halt, Parts};
use ox_outside::Site;
use ox_rows::Source;

/// A body of which at most so many bytes are read at once.
#[derive(Drop)]
pub(crate) struct Pieces {
    pub(crate) parts: Parts,
    pub(crate) most: usize,
}

impl<S: Site> Source<S> for Pieces {
    ghost use Rattle.std.specs.Prelude.{◌-◌, ◌≤◌, IsTrue};
    ghost use Rattle.ox_gated.specs.Parts.{AreParts, IsLeft};
    ghost use Rattle.ox_store.specs.Parts.{ReadsOn, ReadsUntil};
    ghost use Rattle.ox_store.specs.Reading.{reads_none, reads_then, reads_until};

    type Fault = Halt;

    ghost ready = { λ k site.
        (1 ≤ k.most) × (IsTrue (S.told site) → AreParts k.parts (S.seen site)) };

    ghost comes = { λ k site rest. IsLeft S.Site k.parts site rest };

    ghost left = { λ k. k.parts.size - k.parts.read };

    ghost went = { λ k old l new. ReadsOn S.Site k.parts old l.parts new };

    ghost ended = { λ k old halt l new. ReadsUntil S.Site old halt new };

    fn more(&mut self, site: &mut S, window: &mut Bytes) -> Result<bool, Halt> {
        self.parts.more(site, window, self.most)
    }

    ghost no_call = { λ k site. reads_none (record {
      told = S.told;
      seen = S.seen;
      log = S.log;
      may_leave = S.may_leave;
      clock = S.clock;
      left_since = S.left_since;
      counts = S.counts;
    }) S.only_now k.parts site };

    ghost then_went = { λ k l m old mid new first next.
        reads_then _ k.parts l.parts m.parts old mid new first next };

    ghost then_ended = { λ k l m old mid new halt first next.
        reads_until _ k.parts l.parts old mid new halt first next };
}
