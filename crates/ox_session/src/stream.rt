//! The stream of a link, cut into requests. No byte is searched twice for the end of a head, no
//! head is read twice, and a body is copied once.

ghost use Rattle.std.specs.Prelude.{◌≡◌, ◌++◌, [], OnOk, OnErr, IfOk};
ghost use Rattle.ox_http.specs.First.{front_of, opens};
ghost use Rattle.ox_http.specs.Read.{asked_in as asked_in_head};
ghost use Rattle.ox_session.specs.Known.{asked_in};
ghost use Rattle.ox_session.specs.Link.{Cuts};

use crate::buffer::Buffer;
use ox_bytes::{Bytes, Memory};
use ox_http::{HEAD_LIMIT, HeadFound, HeadRead, Method, Request, read_head};
use std::alloc::Global;
use std::marker::Model;

/// The most bytes that are heard at once, of one link in one turn.
pub const PIECE: usize = 65_536;

/// A head that was read, whose body hasn't wholly come.
#[derive(Drop)]
pub struct Known {
    pub len: usize,
    pub method: Method,
    pub path: Bytes,
    pub body_len: usize,
    pub close: bool,
}

/// What a stream begins with.
#[derive(Drop)]
pub enum Next {
    /// A whole request, which is cut off.
    Whole(Request),
    /// Too few bytes to say.
    More,
    /// A fault, by the status of its reply.
    Fault(u16),
}

/// The bytes of a link that aren't answered. Contracts see their list.
#[derive(Drop)]
pub struct Stream {
    alloc: Global,
    bytes: Buffer,
    /// So many of the bytes hold no blank line.
    looked: usize,
    head: Option<Known>,
}

impl Model for Stream {
    ghost use Rattle.std.specs.Prelude.{◌≡◌, ◌≤◌, List, ℕ, length, take, None};
    ghost use Rattle.std.specs.Option.{ForSome};
    ghost use Rattle.ox_http.specs.First.{front_of, head_length, opens};
    ghost use Rattle.ox_session.specs.Known.{asked_in};

    ghost Value = { List ℕ };

    ghost view = { λ s. s.bytes };

    ghost invariant = { λ s. (s.looked ≤ length s.bytes)
        × (head_length (take s.looked s.bytes) ≡ None)
        × ForSome s.head (λ known. front_of s.bytes ≡ opens known.len (asked_in known)) };
}

/// Keeps a head that was read. `Memory` where there is none for its path.
fn known_of(alloc: Global, head: HeadRead) -> Result<Known, Memory>
    ensures len { IfOk result (λ known. known.len ≡ head.entry.len) }
    ensures asked { IfOk result (λ known. asked_in known ≡ asked_in_head head.entry) }
{
    Ok(Known {
        len: head.len,
        method: head.method,
        path: Bytes::copy(alloc, head.path)?,
        body_len: head.body_len,
        close: head.close,
    })
}

/// The most memory that a stream needs while its bytes come piece by piece.
fn most(head: &Option<Known>) -> usize {
    match head {
        Some(known) => known
            .len
            .saturating_add(known.body_len)
            .saturating_add(PIECE),
        None => HEAD_LIMIT + PIECE,
    }
}

impl Stream {
    /// A stream of no bytes. It takes no memory yet.
    pub fn new(alloc: Global) -> Stream
        ensures { result ≡ [] }
    {
        Stream {
            alloc,
            bytes: Buffer::new(alloc),
            looked: 0,
            head: None,
        }
    }

    /// Hears more bytes. `Memory` where there is none for them: nothing has changed then.
    pub fn hear(&mut self, bytes: &[u8]) -> Result<(), Memory>
        ensures ok { OnOk result (self.new ≡ self.old ++ bytes.now) }
        ensures err { OnErr result (self.new ≡ self.old) }
    {
        let most = most(&self.head);
        self.bytes.put(bytes, most)
    }

    /// The request of a head, once its body has come.
    fn cut(&mut self, known: Known) -> Result<Next, Memory>
        requires { front_of self.old ≡ opens known.len (asked_in known) }
        ensures cuts { IfOk result (λ next. Cuts next self.old self.new) }
        ensures err { OnErr result (self.new ≡ self.old) }
    {
        let (_, behind) = self.bytes.as_slice().split_at(known.len);
        if behind.len() < known.body_len {
            self.head = Some(known);
            return Ok(Next::More);
        }
        match Bytes::copy(self.alloc, behind.split_at(known.body_len).0) {
            Ok(body) => {
                self.looked = 0;
                self.head = None;
                self.bytes.take_off(known.len + known.body_len);
                Ok(Next::Whole(Request {
                    method: known.method,
                    path: known.path,
                    body,
                    close: known.close,
                }))
            }
            Err(memory) => {
                self.head = Some(known);
                Err(memory)
            }
        }
    }

    /// Reads the head, if it has come.
    fn begin(&mut self) -> Result<Next, Memory>
        ensures cuts { IfOk result (λ next. Cuts next self.old self.new) }
        ensures err { OnErr result (self.new ≡ self.old) }
    {
        match read_head(self.bytes.as_slice(), self.looked) {
            HeadFound::Opens(head) => {
                let known = known_of(self.alloc, head)?;
                self.cut(known)
            }
            HeadFound::Waits => {
                self.looked = self.bytes.as_slice().len();
                Ok(Next::More)
            }
            HeadFound::Fails(status) => Ok(Next::Fault(status)),
        }
    }

    /// What the stream begins with; a whole request is cut off. `Memory` where there is none for
    /// its path and its body: nothing has changed then.
    pub fn next(&mut self) -> Result<Next, Memory>
        ensures cuts { IfOk result (λ next. Cuts next self.old self.new) }
        ensures err { OnErr result (self.new ≡ self.old) }
    {
        match self.head.take() {
            Some(known) => self.cut(known),
            None => self.begin(),
        }
    }
}
