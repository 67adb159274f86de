//! What a server answers from.

ghost use Rattle.std.specs.Prelude.{◌≡◌, ◌≢◌, ◌+◌, ◌<◌, ◌≤◌, ℕ, Bool, Err, Some, IsTrue};
ghost use Rattle.std.specs.Prelude.{IfOk, OnOk, IsErrOf};
ghost use Rattle.ox_outside.specs.Counts.{Rose, StopsAtFault, greatest};
ghost use Rattle.ox_outside.specs.Crash.{LeavesFiles, Remains};
ghost use Rattle.ox_outside.specs.Files.{Files};
ghost use Rattle.ox_outside.specs.Runs.{Calls, LeavesOnly};
ghost use Rattle.ox_http.specs.declared.Request.{Request as Asked};
ghost use Rattle.ox_links.specs.Serving.{Server};
ghost use Rattle.ox_turns.specs.Desk.{IsHttp, StandsForEither, state_behind};

use ox_bytes::Bytes;
use ox_http::Request;
use ox_outside::Site;

/// A reply, as it is made.
#[derive(Drop)]
pub struct Made {
    /// The bytes of the whole reply.
    pub bytes: Bytes,
    /// Whether the link ends with it.
    pub close: bool,
}

/// Why a desk has no reply.
#[derive(Clone, Copy, Debug, PartialEq, Eq)]
pub enum DeskFault {
    /// A call on a file failed. Nothing is said of the desk then, but what a crash leaves.
    DiskFault,
    /// There is no memory. The state is as before.
    Memory,
}

/// What a server answers from: something that has a state, keeps it in the files of a site, and
/// makes replies. It is generic in what its states and commands are, and says by `server` how it
/// answers.
pub trait Desk<S: Site> {
    /// What a desk answers by.
    ghost State: { Type 0 };

    /// What a request may carry out.
    ghost Command: { Type 0 };

    /// How it reads a stream and answers.
    ghost server: { Server State Command };

    /// The state that two files stand for.
    ghost stands: { Files → State → Type 0 };

    /// The state that the desk has.
    ghost state: { Self → State };

    /// How often it was asked, as far as it counts.
    ghost asked: { Self → ℕ };

    /// The files of the site are as the desk left them.
    ghost rests: { Self → S → Type 0 };

    /// What an answered request makes of a desk: the desk before, the request, whether it is an
    /// operator's, and the desk after.
    ghost moved: { Self → Asked → Bool → Self → Type 0 };

    /// What a request that ran out of memory leaves as it is: the desk before, and after.
    ghost same: { Self → Self → Type 0 };

    /// Answers a request, by the state before it; its command, if there is one, moves the state.
    /// No event is logged. `DiskFault` comes only where that count rose in the call, and then once.
    /// `Memory` where there is none: the state is as before.
    fn ask(&mut self, site: &mut S, request: &Request, operator: bool) -> Result<Made, DeskFault>
        requires rests { rests self.old site.old }
        requires room { asked self.old < greatest }
        ensures made { IfOk result (λ made.
            made.bytes ≡ (server.reply (state self.old) operator request.now).bytes) }
        ensures closes { IfOk result (λ made.
            made.close ≡ (server.reply (state self.old) operator request.now).close) }
        ensures moves { OnOk result (
            state self.new ≡ state_behind server (state self.old) operator request.now) }
        ensures moved { OnOk result (moved self.old request.now operator self.new) }
        ensures memory { IsErrOf result DeskFault.Memory → state self.new ≡ state self.old }
        ensures same { IsErrOf result DeskFault.Memory → same self.old self.new }
        ensures rests { result ≢ Err DeskFault.DiskFault → rests self.new site.new }
        ensures asked { asked self.new ≤ asked self.old + 1 }
        ensures any_moment { IsTrue (S.told site.old) → LeavesOnly S.Site site.old site.new (λ r.
            StandsForEither stands (state self.old)
            (state_behind server (state self.old) operator request.now) r.files) }
        ensures log_stays { LeavesOnly S.Site site.old site.new (λ r.
            S.log site.old ≡ Some r.log) }
        ensures logged { S.log site.new ≡ S.log site.old }
        ensures failed { IsErrOf result DeskFault.DiskFault
            → Rose (S.counts site.old).disk (S.counts site.new).disk }
        ensures counted { StopsAtFault (result ≡ Err DeskFault.DiskFault) ⊥ ⊥
            (S.counts site.old) (S.counts site.new) }
        ensures calls { Calls S.Site site.old site.new };

    /// It reads streams as HTTP/1.1 does, and replies so.
    ghost http: { IsHttp server };

    /// Where files are left as they are, they stay as the desk left them.
    ghost rests_stays: { (desk : Self) (old new : S) → S.told new ≡ S.told old
        → LeavesFiles S.seen S.may_leave old new → rests desk old → rests desk new };

    /// Where files are as the desk left them, a crash leaves what stands for its state.
    ghost rests_stands: { (desk : Self) (site : S) → IsTrue (S.told site) → rests desk site
        → (r : Remains) → S.may_leave site r → stands r.files (state desk) };
}
