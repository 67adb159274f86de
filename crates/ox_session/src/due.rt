//! The bytes that are due on a link.

ghost use Rattle.std.specs.Prelude.{◌≡◌, ◌≤◌, length, drop};
ghost use Rattle.ox_session.specs.Due.{due_bytes};

use crate::buffer::Buffer;
use ox_http::UNAVAILABLE;

/// What is left to be shown of a reply.
#[derive(Drop)]
pub enum Due {
    /// These bytes.
    Reply(Buffer),
    /// The reply 503, of which so many bytes were taken. It takes no memory.
    Unavailable(usize),
}

impl Due {
    /// The bytes.
    pub fn as_slice(&self) -> &[u8]
        ensures { result.now ≡ due_bytes self.now }
    {
        match self {
            Due::Reply(bytes) => bytes.as_slice(),
            Due::Unavailable(taken) => UNAVAILABLE.split_at((*taken).min(UNAVAILABLE.len())).1,
        }
    }

    /// So many bytes were taken.
    pub fn take_off(&mut self, n: usize)
        requires { n ≤ length (due_bytes self.old) }
        ensures { due_bytes self.new ≡ drop n (due_bytes self.old) }
    {
        match self {
            Due::Reply(bytes) => bytes.take_off(n),
            Due::Unavailable(taken) => *taken += n,
        }
    }
}
