//! Blocks one behind the other, each with its length before it.

/// A block in front and what stands behind it, or nothing where there is none.
pub(crate) fn next_block(feed: &[u8]) -> Option<(&[u8], &[u8])> {
    let (head, behind) = feed.split_first_chunk::<4>()?;
    behind.split_at_checked(u32::from_le_bytes(*head) as usize)
}
