//! The values of outputs.

ghost use Rattle.std.specs.Prelude.{◌≡◌, ◌<◌, ◌^◌, map, sum, sum_by};

use ox_block::TxOut;

/// The satoshis of all outputs together.
pub fn value_sum(outputs: &[TxOut]) -> u64
    requires { sum_by (λ output. output.value) outputs.now < 2 ^ 64 }
    ensures { result ≡ sum (map (λ output. output.value) outputs.now) }
{
    outputs.iter().map(|output| output.value).sum()
}
