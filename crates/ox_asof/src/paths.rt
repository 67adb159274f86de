//! Paths that name a block.

ghost use Rattle.std.specs.Prelude.{◌≡◌, option_map};
ghost use Rattle.ox_asof.specs.Paths.{hash_in, path_and_hash};

use ox_query::hash;

/// The hash that is printed as these digits, if any.
fn hash_in(digits: &[u8]) -> Option<[u8; 32]>
    ensures { result ≡ hash_in digits.now }
{
    hash(digits)
}

/// What a path has before `?at=` and 64 lower-case hexadecimal digits, and the hash that is printed
/// as these, if the path ends so. Of two such endings the last one is cut off.
pub fn cut_at(path: &[u8]) -> Option<(&[u8], [u8; 32])>
    ensures { option_map (λ cut. (cut.0.now, cut.1)) result ≡ path_and_hash path.now }
{
    let len = path.len().checked_sub(68)?;
    let (front, ending) = path.split_at(len);
    let digits = ending.strip_prefix(b"?at=")?;
    let hash = hash_in(digits)?;
    Some((front, hash))
}
