//! Bodies of replies, which are written token by token.

ghost use Rattle.std.specs.Prelude.{◌≡◌, [], ◌∷◌, ℕ, List, IfOk, decimal, true};
ghost use Rattle.json.specs.Print.{IsPrintable};
ghost use Rattle.json.specs.Reads.{token_of};
ghost use Rattle.json.specs.Token.{begin_array, begin_object, boolean, end_array, end_object};
ghost use Rattle.json.specs.Token.{key, null, number, string};
ghost use Rattle.serde_json.specs.Data.{Data};
ghost use Rattle.serde_json.specs.Written.{compact_text};
ghost use Rattle.ox_replies.specs.Values.{integer};
ghost use Rattle.ox_query.specs.Written.{Adds, IsBlank, IsTree, tokens_of};

use json::{Token, Writer};
use ox_bytes::{Bytes, Memory};
use std::alloc::Global;

/// For so many bytes a new body has room. It grows where it needs more.
const ROOM: usize = 256;

/// A body that is being written. Once there is no memory for a token it takes no more, and it says
/// so at its end alone, so that no writer has to ask.
#[derive(Drop)]
pub(crate) struct Body {
    /// What is written so far.
    out: Writer,
    /// Whether there was no memory for a token.
    is_short: bool,
}

impl Body {
    /// A body in which nothing is written yet. Where there is no memory for its room it takes
    /// nothing.
    pub fn new(alloc: Global) -> Body
        ensures { IsBlank result }
    {
        match Vec::with_capacity(alloc, ROOM) {
            Ok(room) => Body {
                out: Writer::new(room),
                is_short: false,
            },
            Err(_) => Body {
                out: Writer::new(Vec::new(alloc)),
                is_short: true,
            },
        }
    }

    /// The bytes of the tree that is written. `Memory` where there was none for it or for a
    /// token.
    pub fn into_bytes(self) -> Result<Bytes, Memory>
        ensures { (tree : Data) → IsTree self tree
            → IfOk result (λ bytes. bytes ≡ compact_text tree) }
    {
        let Body { out, is_short } = self;
        if is_short {
            return Err(Memory);
        }
        Ok(Bytes::from_vec(out.into_inner()))
    }

    /// Says that there was no memory for what comes next.
    pub fn fall_short(&mut self)
        ensures { self.new.is_short ≡ true }
    {
        self.is_short = true;
    }

    /// Writes a token.
    fn token(&mut self, token: Token<'_>)
        requires { IsPrintable (token_of token) }
        ensures { Adds self.old self.new (token_of token.entry ∷ []) }
    {
        self.is_short = self.is_short || self.out.token(token).is_err();
    }

    /// Begins an object.
    pub fn begin_object(&mut self)
        ensures { Adds self.old self.new (begin_object ∷ []) }
    {
        self.token(Token::BeginObject);
    }

    /// Ends an object.
    pub fn end_object(&mut self)
        ensures { Adds self.old self.new (end_object ∷ []) }
    {
        self.token(Token::EndObject);
    }

    /// Begins an array.
    pub fn begin_array(&mut self)
        ensures { Adds self.old self.new (begin_array ∷ []) }
    {
        self.token(Token::BeginArray);
    }

    /// Ends an array.
    pub fn end_array(&mut self)
        ensures { Adds self.old self.new (end_array ∷ []) }
    {
        self.token(Token::EndArray);
    }

    /// Writes the name of a member.
    pub fn key(&mut self, name: &str)
        ensures { Adds self.old self.new (key name.now ∷ []) }
    {
        self.token(Token::Key(name));
    }

    /// Writes a text.
    pub fn string(&mut self, text: &str)
        ensures { Adds self.old self.new (string text.now ∷ []) }
    {
        self.token(Token::String(text));
    }

    /// Writes true or false.
    pub fn boolean(&mut self, value: bool)
        ensures { Adds self.old self.new (boolean value ∷ []) }
    {
        self.token(Token::Bool(value));
    }

    /// Writes null.
    pub fn null(&mut self)
        ensures { Adds self.old self.new (null ∷ []) }
    {
        self.token(Token::Null);
    }

    /// Writes a number.
    pub fn u64(&mut self, value: u64)
        ensures { Adds self.old self.new (number (decimal value) ∷ []) }
    {
        self.is_short = self.is_short || self.out.u64(value).is_err();
    }

    /// Writes an integer.
    pub fn i64(&mut self, value: i64)
        ensures { Adds self.old self.new (tokens_of (integer value)) }
    {
        self.is_short = self.is_short || self.out.i64(value).is_err();
    }
}
