//! Kinds of output scripts.

ghost use Rattle.std.specs.Prelude.{◌≡◌};
ghost use Rattle.ox_script.specs.Shape.{is_return, is_taproot};

/// Whether the script begins with OP_RETURN, 0x6a: its output can't be spent.
pub fn is_return(script: &[u8]) -> bool
    ensures { result ≡ is_return script.now }
{
    matches!(script, [0x6a, ..])
}

/// Whether the script is OP_1 and a push of 32 bytes, `51 20` and the bytes, and nothing else: a
/// pay-to-taproot output of BIP 341.
pub fn is_taproot(script: &[u8]) -> bool
    ensures { result ≡ is_taproot script.now }
{
    matches!(script, [0x51, 0x20, program @ ..] if program.len() == 32)
}
