//! The talk of one link: bytes that are heard become requests and faults, and replies bytes that
//! are due.
#![tactic(auto)]

mod buffer;
mod due;
mod stream;

ghost use Rattle.std.specs.Prelude.{◌≡◌, ◌≢◌, ◌≤◌, ◌++◌, [], length, drop, true, false, Ok};
ghost use Rattle.std.specs.Prelude.{OnOk, OnErr, IfOk};
ghost use Rattle.ox_http.specs.Written.{fault_reply as fault, unavailable as unavailable_bytes};
ghost use Rattle.ox_http.specs.Written.{written};
ghost use Rattle.ox_session.specs.Link.{Says, new_link};

use crate::buffer::Buffer;
use crate::due::Due;
use crate::stream::{Next, Stream};
use ox_bytes::{Bytes, Memory};
use ox_http::{Request, fault_reply, write_reply};
use std::alloc::Global;
use std::marker::Model;
pub use stream::PIECE;

/// What a link asks.
#[derive(Drop)]
pub enum Poll {
    /// A request, which is to be answered before the next is asked.
    Asked(Request),
    /// Nothing yet: more has to be heard.
    Waiting,
    /// A fault of the stream. The reply to it is due now, and the link ends with it.
    Answered,
    /// Nothing any more: a reply that says close was wholly taken, or the link has ended and
    /// neither a whole request nor a fault is left.
    Over,
}

/// The session of one link. Contracts see it as a `Link`: the bytes heard and not answered, whether
/// the link has ended, the bytes due, whether a request is asked and not answered, and whether the
/// last reply says close.
#[derive(Drop)]
pub struct Session {
    alloc: Global,
    stream: Stream,
    ended: bool,
    due: Due,
    asked: bool,
    closing: bool,
}

impl Model for Session {
    ghost use Rattle.ox_session.specs.Due.{due_bytes};
    ghost use Rattle.ox_session.specs.Link.{Link};

    ghost Value = { Link };

    ghost view = { λ s. record {
      heard = s.stream;
      ended = s.ended;
      due = due_bytes s.due;
      asked = s.asked;
      closing = s.closing;
    } };
}

impl Session {
    /// The session of a link that has said nothing. It takes no memory yet.
    pub fn new(alloc: Global) -> Session
        ensures { result ≡ new_link }
    {
        Session {
            alloc,
            stream: Stream::new(alloc),
            ended: false,
            due: Due::Reply(Buffer::new(alloc)),
            asked: false,
            closing: false,
        }
    }

    /// The link said these bytes. `Memory` where there is none for them: nothing has changed then.
    pub fn heard(&mut self, bytes: &[u8]) -> Result<(), Memory>
        ensures ok { OnOk result
            (self.new ≡ record self.old { heard = self.old.heard ++ bytes.now }) }
        ensures err { OnErr result (self.new ≡ self.old) }
    {
        self.stream.hear(bytes)
    }

    /// The link says nothing more.
    pub fn ended(&mut self)
        ensures { self.new ≡ record self.old { ended = true } }
    {
        self.ended = true;
    }

    /// Makes the reply to a fault due.
    fn answer(&mut self, status: u16) -> Result<Poll, Memory>
        ensures ok { OnOk result (self.new ≡ record self.old {
          due = written (fault status);
          closing = true;
        }) }
        ensures answered { IfOk result (λ poll. poll ≡ Poll.Answered) }
        ensures err { OnErr result (self.new ≡ self.old) }
    {
        let reply = fault_reply(self.alloc, status)?;
        let bytes = write_reply(self.alloc, &reply)?;
        self.due = Due::Reply(Buffer::of(self.alloc, bytes));
        self.closing = true;
        Ok(Poll::Answered)
    }

    /// What a link asks of which the last reply doesn't say close.
    fn ask(&mut self) -> Result<Poll, Memory>
        ensures says { IfOk result (λ poll. Says poll self.old self.new) }
        ensures err { OnErr result (self.new ≡ self.old) }
    {
        match self.stream.next()? {
            Next::Whole(request) => {
                self.asked = true;
                Ok(Poll::Asked(request))
            }
            Next::Fault(status) => self.answer(status),
            Next::More if self.ended => Ok(Poll::Over),
            Next::More => Ok(Poll::Waiting),
        }
    }

    /// What the link asks: exactly one of the four answers. `Memory` where there is none for a
    /// request or for the reply to a fault, and never once a reply that says close was taken:
    /// nothing has changed then.
    pub fn poll(&mut self) -> Result<Poll, Memory>
        requires taken { self.old.due ≡ [] }
        requires answered { self.old.asked ≡ false }
        ensures closed { self.old.closing ≡ true
            → (result ≡ Ok Poll.Over) × (self.new ≡ self.old) }
        ensures says { self.old.closing ≡ false
            → IfOk result (λ poll. Says poll self.old self.new) }
        ensures err { OnErr result (self.new ≡ self.old) }
    {
        if self.closing {
            return Ok(Poll::Over);
        }
        self.ask()
    }

    /// The reply to the request that is asked, and whether the link ends with it.
    pub fn reply(&mut self, bytes: Bytes, close: bool)
        requires asked { self.old.asked ≡ true }
        requires some { bytes ≢ [] }
        ensures { self.new ≡ record self.old { due = bytes; asked = false; closing = close } }
    {
        self.due = Due::Reply(Buffer::of(self.alloc, bytes));
        self.asked = false;
        self.closing = close;
    }

    /// There is no memory: the reply 503 is due, and answers a request that is asked. The link ends
    /// with it.
    pub fn unavailable(&mut self)
        requires { self.old.due ≡ [] }
        ensures { self.new ≡ record self.old {
          due = unavailable_bytes;
          asked = false;
          closing = true;
        } }
    {
        self.due = Due::Unavailable(0);
        self.asked = false;
        self.closing = true;
    }

    /// The bytes that are due.
    pub fn due(&self) -> &[u8]
        ensures { result.now ≡ self.now.due }
    {
        self.due.as_slice()
    }

    /// The link took so many of the bytes that are due.
    pub fn took(&mut self, n: usize)
        requires { n ≤ length self.old.due }
        ensures { self.new ≡ record self.old { due = drop n self.old.due } }
    {
        self.due.take_off(n);
    }
}
