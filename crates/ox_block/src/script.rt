//! The script of an output.

ghost use Rattle.std.specs.Prelude.{◌≡◌, ◌≤◌, ◌==◌, length, IfOk, IsOk};
ghost use Rattle.ox_block.specs.Script.{bytes_in, IsForm};

use ox_bytes::{Bytes, Memory};
use std::alloc::Global;
use std::marker::Model;

/// So many bytes have room inside a script.
const ROOM: usize = 36;

/// The script that locks an output. Contracts see it as the list of its bytes. One of up to 36
/// bytes, as nearly all are, takes no memory of its own.
#[derive(Drop)]
pub struct Script {
    form: Form,
}

/// What a script is kept as.
#[derive(Drop)]
enum Form {
    /// So many bytes, the first of these.
    Inside(u8, [u8; ROOM]),
    /// Bytes in memory of their own.
    Apart(Bytes),
}

impl Model for Script {
    ghost use Rattle.std.specs.Prelude.{List, ℕ};
    ghost use Rattle.ox_block.specs.Script.{bytes_in, IsForm};

    ghost Value = { List ℕ };

    ghost view = { λ s. bytes_in s.form };

    ghost invariant = { λ s. IsForm s.form };
}

impl Script {
    /// The bytes of the slice, copied. `Memory` where there is none for them, which is so for more
    /// than 36 bytes alone.
    pub fn copy(alloc: Global, bytes: &[u8]) -> Result<Script, Memory>
        ensures bytes { IfOk result (λ script. script ≡ bytes.now) }
        ensures inside { length bytes.now ≤ 36 → IsOk result }
    {
        let form = if bytes.len() <= ROOM {
            inside(bytes)
        } else {
            Form::Apart(Bytes::copy(alloc, bytes)?)
        };
        Ok(Script { form })
    }

    /// The same bytes, copied. `Memory` where there is none for them, which is so for more than 36
    /// bytes alone.
    pub fn try_clone(&self, alloc: Global) -> Result<Script, Memory>
        ensures bytes { IfOk result (λ copy. copy ≡ self.now) }
        ensures inside { length self.now ≤ 36 → IsOk result }
    {
        let form = match &self.form {
            Form::Inside(len, room) => Form::Inside(*len, *room),
            Form::Apart(bytes) => Form::Apart(Bytes::copy(alloc, bytes.as_slice())?),
        };
        Ok(Script { form })
    }

    /// The bytes, to be read in place.
    pub fn as_slice(&self) -> &[u8]
        ensures { result.now ≡ self.now }
    {
        match &self.form {
            Form::Inside(len, room) => &room[..*len as usize],
            Form::Apart(bytes) => bytes.as_slice(),
        }
    }

    /// How many bytes there are.
    pub fn len(&self) -> usize
        ensures { result ≡ length self.now }
    {
        match &self.form {
            Form::Inside(len, _) => *len as usize,
            Form::Apart(bytes) => bytes.len(),
        }
    }

    /// Whether there are none.
    pub fn is_empty(&self) -> bool
        ensures { result ≡ (length self.now == 0) }
    {
        self.len() == 0
    }
}

/// These bytes, inside a script.
fn inside(bytes: &[u8]) -> Form
    requires { length bytes.now ≤ 36 }
    ensures bytes { bytes_in result ≡ bytes.now }
    ensures form { IsForm result }
{
    let mut room = [0; ROOM];
    room[..bytes.len()].copy_from_slice(bytes);
    Form::Inside(bytes.len() as u8, room)
}
