//! A desk with one reply to all that is asked.

ghost use Rattle.std.specs.Prelude.{◌≡◌, codes, IfOk};

use ox_bytes::{Bytes, Memory};
use ox_http::Request;
use ox_outside::{Site, Which};
use ox_turns::{Desk, DeskFault, Made};
use std::alloc::Global;

/// A desk that looks at a file and replies "ok". It keeps nothing, and finds no memory at calls
/// that are stated.
#[derive(Drop)]
pub struct OneReply {
    /// Where the reply is made.
    pub alloc: Global,
    /// How often it was asked.
    pub calls: u64,
    /// The first call that finds no memory, counted from 0.
    pub starved_from: u64,
    /// The first call behind these.
    pub starved_until: u64,
}

impl OneReply {
    /// Counts a call, and says whether it finds memory.
    fn next_call(&mut self) -> bool {
        let call = self.calls;
        self.calls = call.saturating_add(1);
        call < self.starved_from || self.starved_until <= call
    }

    /// The reply, with which the link ends or not. `Memory` where there is none.
    fn made(&mut self, close: bool) -> Result<Made, Memory>
        ensures bytes { IfOk result (λ made. made.bytes ≡ codes "ok") }
        ensures close { IfOk result (λ made. made.close ≡ close) }
    {
        if !self.next_call() {
            return Err(Memory);
        }
        let bytes = Bytes::copy(self.alloc, b"ok")?;
        Ok(Made { bytes, close })
    }
}

impl<S: Site> Desk<S> for OneReply {
    ghost use Rattle.std.specs.Prelude.{◌≤◌, ℕ};
    ghost use Rattle.ox_part_tests.specs.OneReply as one_reply;
    ghost use Rattle.std.proofs.Common.{refl, arith};

    ghost State = { ℕ };

    ghost Command = { ℕ };

    ghost server = { one_reply.server };

    ghost stands = { λ files state. Unit {0} };

    ghost state = { λ desk. 0 };

    ghost asked = { λ desk. 0 };

    ghost rests = { λ desk site. Unit {0} };

    ghost moved = { λ old request operator new. Unit {0} };

    ghost same = { λ old new. Unit {0} };

    fn ask(&mut self, site: &mut S, request: &Request, _operator: bool) -> Result<Made, DeskFault> {
        if site.len(Which::A).is_err() {
            return Err(DeskFault::DiskFault);
        }
        match self.made(request.close) {
            Ok(made) => Ok(made),
            Err(_) => Err(DeskFault::Memory),
        }
    }

    ghost http = { record {
      talk = λ bytes. refl;
      fault_bytes = λ status. refl;
      fault_closes = λ status. refl;
      unavailable_bytes = refl;
      unavailable_closes = refl;
      reply_speaks = λ state operator request. let e : 1 ≤ 2 = omega arith in e;
      reply_closes = λ state operator request. refl;
    } };

    ghost rests_stays = { λ desk old new told files rests. tt };

    ghost rests_stands = { λ desk site told rests r left. tt };
}
