//! A site in memory that is served by the desk with one reply.

ghost use Rattle.std.specs.Prelude.{◌≡◌, None};
ghost use Rattle.ox_part_tests.specs.Served.{IsServed};

use crate::turns::one_reply::OneReply;
use ox_memsite::MemSite;
use ox_turns::{TurnFault, Turns, empty_slots_follow};
use std::alloc::Global;
use std::process::Abort;

/// A site, the slots of its links, and the desk that answers them.
#[derive(Drop)]
pub struct Served {
    pub site: MemSite,
    pub turns: Turns,
    pub desk: OneReply,
}

impl Served {
    /// No turn was made yet.
    pub fn new(rt: &impl Abort, alloc: Global, site: MemSite, desk: OneReply) -> Served
        ensures { IsServed result.turns result.site }
    {
        empty_slots_follow::<u64, u64>();
        let Ok(turns) = Turns::new(alloc) else {
            panic!(rt; "no memory");
        };
        Served { site, turns, desk }
    }

    /// Makes one turn, and says how it failed.
    pub fn turn(&mut self) -> Option<TurnFault>
        requires { IsServed self.old.turns self.old.site }
        ensures { result ≡ None → IsServed self.new.turns self.new.site }
    {
        match self.turns.turn(&mut self.site, &mut self.desk) {
            Ok(()) => None,
            Err(fault) => Some(fault),
        }
    }

    /// Makes so many turns, none of which fails.
    pub fn make_turns(&mut self, rt: &impl Abort, count: usize)
        requires { IsServed self.old.turns self.old.site }
        ensures { IsServed self.new.turns self.new.site }
    {
        for _ in 0..count {
            if self.turn().is_some() {
                panic!(rt; "a turn failed");
            }
        }
    }
}
