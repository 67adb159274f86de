//! What `/status` says.

ghost use Rattle.std.specs.Prelude.{◌≡◌, IfOk, option_copied};
ghost use Rattle.serde_json.specs.Written.{compact_text};
ghost use Rattle.ox_replies.specs.Status.{status_tree, tip};
ghost use Rattle.ox_query.specs.Asked.{asked_of};
ghost use Rattle.ox_query.specs.Written.{Adds, tokens_of};

use crate::bodies::Body;
use crate::values::write_hash_or_null;
use ox_bytes::{Bytes, Memory};
use ox_model::{About, View};
use ox_sat::ProfileName;
use std::alloc::Global;

/// The newest block's hash.
fn newest<V: View>(live: &V) -> Option<&[u8; 32]>
    ensures { option_copied result ≡ tip (V.index live.now).hashes }
{
    live.hash_of(live.blocks().checked_sub(1)?)
}

/// Writes what is asked of a chain's blocks.
fn write_status<V: View>(out: &mut Body, live: &V, about: &About)
    ensures { Adds out.old out.new (tokens_of
        (status_tree (asked_of (V.chain live.now) (V.index live.now) about.now))) }
{
    let profile = ProfileName::of_byte(live.profile().byte);
    out.begin_object();
    out.key("blocks");
    out.u64(u64::from(live.blocks()));
    out.key("depth");
    out.u64(u64::from(about.depth));
    out.key("kept");
    out.u64(u64::from(about.kept));
    out.key("profile");
    out.string(profile.word());
    out.key("tip");
    write_hash_or_null(out, newest(live));
    out.end_object();
}

/// How many blocks there are, may be taken back and can be, the profile and the newest block's
/// hash. `Memory` where there is none for it.
pub(crate) fn status_body<V: View>(alloc: Global, live: &V, about: &About) -> Result<Bytes, Memory>
    ensures { IfOk result (λ body. body ≡ compact_text
        (status_tree (asked_of (V.chain live.now) (V.index live.now) about.now))) }
{
    let mut out = Body::new(alloc);
    write_status(&mut out, live, about);
    out.into_bytes()
}
