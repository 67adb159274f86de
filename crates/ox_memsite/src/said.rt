//! What a link will say, one hearing after another.

ghost use Rattle.std.specs.Prelude.{◌≡◌, [], ◌∷◌, ◌++◌, drop, MatchOption, IfOk, OnOk, OnErr};
ghost use Rattle.ox_memsite.specs.Script.{said_next, said_bytes, left_after, without_empty};
ghost use Rattle.ox_memsite.specs.Script.{kept_said};
ghost use Rattle.ox_memsite.specs.declared.said.Said.TheVariants as entries;

use ox_bytes::{Bytes, Memory};
use std::alloc::Global;
use std::marker::Model;

/// One entry of a link's script: bytes, which may take several hearings; nothing yet, for one
/// hearing; or the link's end.
#[derive(Drop)]
pub enum Said {
    Bytes(Bytes),
    NotYet,
    End,
}

/// What a link will still say.
#[derive(Drop)]
pub struct Script {
    said: Vec<Said>,
    next: usize,
    taken: usize,
}

impl Model for Script {
    ghost use Rattle.std.specs.Prelude.{List, drop};
    ghost use Rattle.ox_memsite.specs.Left.{left_of};
    ghost use Rattle.ox_memsite.specs.declared.said.Said.{Said};

    ghost Value = { List Said };

    ghost view = { λ s. left_of s.taken (drop s.next s.said.items) };
}

impl Script {
    /// Nothing to say.
    pub fn empty(alloc: Global) -> Script
        ensures { result ≡ [] }
    {
        Script {
            said: Vec::new(alloc),
            next: 0,
            taken: 0,
        }
    }

    /// A copy of these entries, but for those of no bytes. `Memory` where there is none for it.
    pub fn copy(alloc: Global, script: &[Said]) -> Result<Script, Memory>
        ensures { IfOk result (λ s. s ≡ without_empty script.now) }
    {
        Ok(Script {
            said: copies(alloc, script)?,
            next: 0,
            taken: 0,
        })
    }

    /// Says the next entry, of bytes as many as there is room for; past the last one nothing yet.
    /// `Memory` where there is none for the bytes: all is as before then.
    pub fn say(&mut self, alloc: Global, room: usize) -> Result<Said, Memory>
        ensures ok { IfOk result (λ said. said ≡ said_next room self.old) }
        ensures left { OnOk result (self.new ≡ left_after room self.old) }
        ensures err { OnErr result (self.new ≡ self.old) }
    {
        let Some(next) = self.said.get(self.next) else {
            return Ok(Said::NotYet);
        };
        let said = match next {
            Said::Bytes(bytes) => {
                let rest = bytes_past(bytes.as_slice(), self.taken);
                let said = say_bytes(alloc, rest, room)?;
                if room < rest.len() {
                    self.taken = bytes.len() - rest.len() + room;
                    return Ok(said);
                }
                said
            }
            Said::NotYet => Said::NotYet,
            Said::End => Said::End,
        };
        self.next += 1;
        self.taken = 0;
        Ok(said)
    }
}

/// The bytes behind the first so many.
fn bytes_past(bytes: &[u8], count: usize) -> &[u8]
    ensures { result.now ≡ drop count bytes.now }
{
    let (_, rest) = bytes.split_at(count.min(bytes.len()));
    rest
}

/// As many of the bytes as there is room for, or nothing yet where there are none.
fn say_bytes(alloc: Global, bytes: &[u8], room: usize) -> Result<Said, Memory>
    ensures { IfOk result (λ said. said ≡ said_bytes room bytes.now) }
{
    if bytes.is_empty() {
        return Ok(Said::NotYet);
    }
    let (front, _) = bytes.split_at(room.min(bytes.len()));
    Ok(Said::Bytes(Bytes::copy(alloc, front)?))
}

/// Copies of the entries, but for those of no bytes.
fn copies(alloc: Global, script: &[Said]) -> Result<Vec<Said>, Memory>
    ensures { IfOk result (λ said. said.items ≡ without_empty script.now) }
{
    let mut said = Vec::new(alloc);
    for entry in script {
        append_copy(alloc, &mut said, entry)?;
    }
    Ok(said)
}

fn append_copy(alloc: Global, said: &mut Vec<Said>, entry: &Said) -> Result<(), Memory>
    ensures { OnOk result (said.new.items ≡ said.old.items ++ kept_said entry.now) }
{
    if let Some(copy) = copy_said(alloc, entry)? {
        said.push(copy)?;
    }
    Ok(())
}

/// A copy of an entry, unless it has no bytes.
fn copy_said(alloc: Global, entry: &Said) -> Result<Option<Said>, Memory>
    ensures { IfOk result (λ copy.
        MatchOption copy (kept_said entry.now ≡ []) (λ c. kept_said entry.now ≡ c ∷ [])) }
{
    match entry {
        Said::Bytes(bytes) => copy_bytes(alloc, bytes.as_slice()),
        Said::NotYet => Ok(Some(Said::NotYet)),
        Said::End => Ok(Some(Said::End)),
    }
}

/// A copy of an entry of these bytes, unless there are none.
fn copy_bytes(alloc: Global, bytes: &[u8]) -> Result<Option<Said>, Memory>
    ensures { IfOk result (λ copy.
        MatchOption copy (bytes.now ≡ []) (λ c. kept_said (entries.Bytes bytes.now) ≡ c ∷ [])) }
{
    if bytes.is_empty() {
        return Ok(None);
    }
    Ok(Some(Said::Bytes(Bytes::copy(alloc, bytes)?)))
}
