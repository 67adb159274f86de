//! What `/runes/{page}` says.

ghost use Rattle.std.specs.Prelude.{◌≡◌, IfOk, option_map};
ghost use Rattle.serde_json.specs.Written.{compact_text};
ghost use Rattle.ox_replies.specs.Pages.{page_tree};
ghost use Rattle.ox_replies.specs.Runes.{rune_id};
ghost use Rattle.ox_replies.specs.Texts.{number_in};

use crate::bodies::Body;
use crate::pages::{Numbered, page_body};
use crate::rune_values::write_rune_id;
use ox_bytes::{Bytes, Memory};
use ox_model::{RuneRow, View};
use std::alloc::Global;

impl Numbered for RuneRow {
    ghost rows = { λ index. index.runes };

    ghost id_of = { rune_id };

    fn count<V: View>(live: &V) -> u32 {
        live.runes()
    }

    fn at<V: View>(live: &V, n: u32) -> &RuneRow {
        live.rune(n)
    }

    fn write_id(&self, out: &mut Body) {
        write_rune_id(out, &self.id);
    }
}

/// The page of runes whose number a part spells, if it spells one. `Memory` where there is none for
/// it.
pub(crate) fn rune_page_body<V: View>(
    alloc: Global,
    live: &V,
    part: &[u8],
) -> Result<Option<Bytes>, Memory>
    ensures { IfOk result (λ body. body ≡ option_map compact_text
        (option_map (page_tree rune_id (V.index live.now).runes) (number_in part.now))) }
{
    page_body::<RuneRow, V>(alloc, live, part)
}
