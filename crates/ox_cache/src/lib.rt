//! Replies that are kept, so that a question asked again needs no answer made again.
#![tactic(auto)]

ghost use Rattle.std.specs.Prelude.{◌≡◌, Ok, None, IfOk, IfSome, OnOk, OnErr};
ghost use Rattle.std.specs.NonZero.{non_zero_usize_get};
ghost use Rattle.ox_http.specs.Written.{written};
ghost use Rattle.ox_cache.specs.Kept.{Answers, Hits, IsNewest, Peeked, after_miss};
ghost use Rattle.ox_cache.specs.Kept.{closing, counted, entry_in, entry_of, none_kept};

use lru::LruCache;
use ox_bytes::{Bytes, Memory};
use ox_http::{Reply, write_parts};
use std::alloc::Global;
use std::marker::Model;
use std::num::NonZeroUsize;

/// The most bytes that the body of a kept reply has.
pub const BODY_KEPT: usize = 65_536;

/// What a reply answers.
#[derive(PartialEq, Eq, Hash, Drop)]
struct Key {
    /// How many commands had been accepted.
    commands: u64,
    path: Vec<u8>,
}

/// A reply as it is kept: once it was a hit, with its bytes where the link goes on, so that these
/// are copied from then on and not written again. Contracts see the reply.
struct KeptReply {
    reply: Reply,
    bytes: Option<Bytes>,
}

/// By hand, so that whoever drops one makes one call.
impl Drop for KeptReply {
    fn drop(self) {
        let KeptReply {
            reply: _reply,
            bytes: _bytes,
        } = self;
    }
}

impl Model for KeptReply {
    ghost use Rattle.std.specs.Prelude.{◌≡◌, false, IfSome};
    ghost use Rattle.ox_http.specs.declared.Reply.{Reply};
    ghost use Rattle.ox_http.specs.Written.{written};
    ghost use Rattle.ox_cache.specs.Kept.{closing};

    ghost Value = { Reply };

    ghost view = { λ kept. kept.reply };

    ghost invariant = { λ kept.
        IfSome kept.bytes (λ bytes. bytes ≡ written (closing false kept.reply)) };
}

impl KeptReply {
    /// The reply was a hit: it has its bytes from now on. `Memory` where there is none for them.
    fn keep_bytes(&mut self, alloc: Global) -> Result<(), Memory>
        ensures { self.new ≡ self.old }
    {
        if self.bytes.is_none() {
            self.bytes = Some(write_parts(alloc, self.reply.parts(), false)?);
        }
        Ok(())
    }

    /// The reply's bytes, with which the link ends where `close` is so. `Memory` where there is
    /// none for them.
    fn bytes(&self, alloc: Global, close: bool) -> Result<Bytes, Memory>
        ensures { IfOk result (λ bytes. bytes ≡ written (closing close self.now)) }
    {
        match &self.bytes {
            Some(bytes) if !close => Bytes::copy(alloc, bytes.as_slice()),
            _ => write_parts(alloc, self.reply.parts(), close),
        }
    }
}

/// The reply that is kept for a key has its bytes from now on. `Memory` where there is none for
/// them.
fn keep_bytes_of(
    replies: &mut LruCache<Key, KeptReply>,
    alloc: Global,
    key: &Key,
) -> Result<(), Memory>
    ensures { replies.new ≡ replies.old }
{
    let Some(kept) = replies.peek_mut(key) else {
        return Ok(());
    };
    kept.keep_bytes(alloc)
}

/// Replies by the number of commands and the path that they answer. Contracts see a cache as
/// `Kept`: its entries, the most recent first, how many there may be, and the hits.
#[derive(Drop)]
pub struct Cache {
    alloc: Global,
    replies: LruCache<Key, KeptReply>,
    hits: u64,
}

impl Model for Cache {
    ghost use Rattle.ox_cache.specs.Kept.{Kept, kept_in};

    ghost Value = { Kept };

    ghost view = { λ c. kept_in c.replies c.hits };
}

impl Cache {
    /// A cache that keeps nothing yet, and at most `room` replies. `Memory` where there is none for
    /// its table.
    pub fn new(alloc: Global, room: NonZeroUsize) -> Result<Cache, Memory>
        ensures { IfOk result (λ cache. cache ≡ none_kept (non_zero_usize_get room)) }
    {
        Ok(Cache {
            alloc,
            replies: LruCache::new(alloc, room)?,
            hits: 0,
        })
    }

    /// The bytes of the most recent reply, where it is that of this number and this path, and was a
    /// hit before. No path is copied for it, and nothing is hashed.
    fn newest(&self, commands: u64, path: &[u8], close: bool) -> Result<Option<Bytes>, Memory>
        ensures { IfOk result (λ found. IfSome found (λ bytes.
            IsNewest commands path.now close bytes self.now.entries)) }
    {
        match self.replies.peek_mru() {
            Some((key, kept))
                if kept.bytes.is_some()
                    && key.commands == commands
                    && key.path.as_slice() == path => { Ok(Some(kept.bytes(self.alloc, close)?)) }
            _ => Ok(None),
        }
    }

    /// The bytes of the reply that is kept for a key, if there is one.
    fn peek(&self, key: &Key, close: bool) -> Result<Option<Bytes>, Memory>
        ensures { IfOk result (λ found. Peeked close found
            (entry_of key.now.commands key.now.path.items self.now.entries)) }
    {
        match self.replies.peek(key) {
            Some(kept) => Ok(Some(kept.bytes(self.alloc, close)?)),
            None => Ok(None),
        }
    }

    /// A reply that is kept was the answer.
    fn count(&mut self)
        ensures { self.new ≡ counted self.old }
    {
        self.hits = self.hits.saturating_add(1);
    }

    /// The reply that is kept for the key was the answer. `Memory` where there is none to keep its
    /// bytes, at the first time: nothing has changed then.
    fn hit(&mut self, key: &Key) -> Result<(), Memory>
        ensures ok { OnOk result (Hits key.now.commands key.now.path.items
            (entry_of key.now.commands key.now.path.items self.old.entries) self.old self.new) }
        ensures err { OnErr result (self.new ≡ self.old) }
    {
        keep_bytes_of(&mut self.replies, self.alloc, key)?;
        self.replies.promote(key);
        self.count();
        Ok(())
    }

    /// Keeps a reply that was made, unless its body is too long. `Memory` where there is none for
    /// it: nothing has changed then.
    fn keep(&mut self, key: Key, reply: Reply) -> Result<(), Memory>
        requires { entry_of key.commands key.path.items self.old.entries ≡ None }
        ensures ok { OnOk result (self.new ≡ after_miss (entry_in (key, reply)) self.old) }
        ensures err { OnErr result (self.new ≡ self.old) }
    {
        if reply.body.len() <= BODY_KEPT {
            self.replies.put(key, KeptReply { reply, bytes: None })?;
        }
        Ok(())
    }

    /// The bytes of the reply to a path, after so many accepted commands, with which the link ends
    /// where `close` is so: of the one that is kept for both, and else of the one that `make`
    /// makes, which is kept where its body has at most 65,536 bytes. `Memory` where there is none,
    /// for the bytes, for the entry or in `make`: nothing has changed then.
    pub fn answer<F: FnOnce() -> Result<Reply, Memory>>(
        &mut self,
        commands: u64,
        path: &[u8],
        close: bool,
        make: F,
    ) -> Result<Bytes, Memory>
        requires { F.pre make }
        ensures answers { IfOk result (λ bytes.
            Answers (λ reply. F.post make (Ok reply)) commands path.now close self.old bytes
            self.new (entry_of commands path.now self.old.entries)) }
        ensures err { OnErr result (self.new ≡ self.old) }
    {
        if let Some(bytes) = self.newest(commands, path, close)? {
            self.count();
            return Ok(bytes);
        }
        let key = Key {
            commands,
            path: Vec::from_slice(self.alloc, path)?,
        };
        if let Some(bytes) = self.peek(&key, close)? {
            self.hit(&key)?;
            return Ok(bytes);
        }
        let reply = make()?;
        let bytes = write_parts(self.alloc, reply.parts(), close)?;
        self.keep(key, reply)?;
        Ok(bytes)
    }

    /// How often a reply that was kept was the answer, up to the greatest number.
    pub fn hits(&self) -> u64
        ensures { result ≡ self.now.hits }
    {
        self.hits
    }
}
