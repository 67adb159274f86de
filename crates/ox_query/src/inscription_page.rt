//! What `/inscriptions/{page}` says.

ghost use Rattle.std.specs.Prelude.{◌≡◌, IfOk, option_map};
ghost use Rattle.serde_json.specs.Written.{compact_text};
ghost use Rattle.ox_replies.specs.Inscriptions.{inscription_id};
ghost use Rattle.ox_replies.specs.Pages.{page_tree};
ghost use Rattle.ox_replies.specs.Texts.{number_in};

use crate::bodies::Body;
use crate::ids::write_id;
use crate::pages::{Numbered, page_body};
use ox_bytes::{Bytes, Memory};
use ox_model::{InsRow, View};
use std::alloc::Global;

impl Numbered for InsRow {
    ghost rows = { λ index. index.inscriptions };

    ghost id_of = { inscription_id };

    fn count<V: View>(live: &V) -> u32 {
        live.inscriptions()
    }

    fn at<V: View>(live: &V, n: u32) -> &InsRow {
        live.inscription(n)
    }

    fn write_id(&self, out: &mut Body) {
        write_id(out, &self.id);
    }
}

/// The page of inscriptions whose number a part spells, if any. `Memory` where there is none for
/// it.
pub(crate) fn inscription_page_body<V: View>(
    alloc: Global,
    live: &V,
    part: &[u8],
) -> Result<Option<Bytes>, Memory>
    ensures { IfOk result (λ body. body ≡ option_map compact_text
        (option_map (page_tree inscription_id (V.index live.now).inscriptions)
        (number_in part.now))) }
{
    page_body::<InsRow, V>(alloc, live, part)
}
