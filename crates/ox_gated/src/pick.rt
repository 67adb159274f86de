//! Which of two files is current.

ghost use Rattle.std.specs.Prelude.{◌≡◌, IfOk, IfSome, IsTrue};
ghost use Rattle.ox_gated.specs.Layout.{head_of, is_lawful};
ghost use Rattle.ox_gated.specs.Pick.{choice_of, lone_choice, greater_of};

use crate::head::{Opening, is_shut, opening_of};
use crate::layout::{GENERATION_AT, MAGIC_AT};
use ox_outside::Which;

/// The current one of two files with these fronts, or the file and the place of the first test that
/// fails.
pub fn pick(a: &[u8], b: &[u8]) -> Result<(Which, Opening), (Which, u64)>
    ensures choice { result ≡ choice_of a.now b.now }
    ensures lawful { IfOk result (λ choice. IsTrue (is_lawful choice.1.head)) }
{
    match (is_shut(a), is_shut(b)) {
        (true, true) => Err((Which::A, 0)),
        (true, false) => {
            if a.is_empty() {
                Err((Which::A, 0))
            } else {
                choice_of_one(Which::B, opening_of(b))
            }
        }
        (false, true) => {
            if b.is_empty() {
                Err((Which::B, 0))
            } else {
                choice_of_one(Which::A, opening_of(a))
            }
        }
        (false, false) => choice_of_two(opening_of(a), opening_of(b)),
    }
}

fn choice_of_one(file: Which, opening: Option<Opening>) -> Result<(Which, Opening), (Which, u64)>
    requires { IfSome opening (λ o. IsTrue (is_lawful o.head)) }
    ensures choice { result ≡ lone_choice file opening }
    ensures lawful { IfOk result (λ choice. IsTrue (is_lawful choice.1.head)) }
{
    match opening {
        Some(opening) => Ok((file, opening)),
        None => Err((file, MAGIC_AT as u64)),
    }
}

fn choice_of_two(a: Option<Opening>, b: Option<Opening>) -> Result<(Which, Opening), (Which, u64)>
    requires a { IfSome a (λ o. IsTrue (is_lawful o.head)) }
    requires b { IfSome b (λ o. IsTrue (is_lawful o.head)) }
    ensures choice { result ≡ greater_of a b }
    ensures lawful { IfOk result (λ choice. IsTrue (is_lawful choice.1.head)) }
{
    match (a, b) {
        (None, _) => Err((Which::A, MAGIC_AT as u64)),
        (Some(_), None) => Err((Which::B, MAGIC_AT as u64)),
        (Some(a), Some(b)) => {
            if a.head.generation == b.head.generation {
                Err((Which::B, GENERATION_AT as u64))
            } else if a.head.generation < b.head.generation {
                Ok((Which::B, b))
            } else {
                Ok((Which::A, a))
            }
        }
    }
}
