//! Lists that are cut where they ended.

ghost use Rattle.std.specs.Prelude.{◌≡◌, filter, nat_lt};
ghost use Rattle.std.specs.List.Sorted.{IsStrictlyIncreasing};
ghost use Rattle.ox_asof.specs.Past.{number_below};

/// The numbers below an end, of some that rise. It costs a logarithm.
pub(crate) fn numbers_below(numbers: &[u32], end: u32) -> &[u32]
    requires { IsStrictlyIncreasing numbers.now }
    ensures { result.now ≡ filter (λ n. nat_lt n end) numbers.now }
{
    let len = numbers.partition_point(|n| *n < end);
    let (front, _) = numbers.split_at(len);
    front
}

/// A number, if it is below an end.
pub(crate) fn number_below(number: Option<u32>, end: u32) -> Option<u32>
    ensures { result ≡ number_below end number }
{
    match number {
        Some(n) if n < end => Some(n),
        _ => None,
    }
}
