//! Pages of a list: a hundred entries each, counted from 0.

ghost use Rattle.std.specs.Prelude.{◌≡◌, ◌+◌, ◌*◌, ◌<◌, ◌≤◌, List, IfOk, Some, length, map, min};
ghost use Rattle.std.specs.Prelude.{nat_lt, option_map, slice_get};
ghost use Rattle.serde_json.specs.Data.{Data, array};
ghost use Rattle.serde_json.specs.View.{items_of};
ghost use Rattle.serde_json.specs.Written.{compact_text};
ghost use Rattle.ox_model.specs.Index.{Index};
ghost use Rattle.ox_replies.specs.Pages.{page_tree};
ghost use Rattle.ox_replies.specs.Texts.{number_in};
ghost use Rattle.ox_query.specs.Paged.{page_end, rows_between};
ghost use Rattle.ox_query.specs.Written.{Adds, tokens_of};

use crate::bodies::Body;
use crate::parts::number;
use ox_bytes::{Bytes, Memory};
use ox_model::View;
use std::alloc::Global;

/// Rows of an index, numbered from 0, whose ids stand on pages.
pub(crate) trait Numbered: Sized {
    /// All of them.
    ghost rows: { Index → List Self };

    /// What a page says of one: its id.
    ghost id_of: { Self → Data };

    /// How many there are.
    fn count<V: View>(live: &V) -> u32
        ensures { result ≡ length (rows (V.index live.now)) };

    /// The one with a number.
    fn at<V: View>(live: &V, n: u32) -> &Self
        requires { n < length (rows (V.index live.now)) }
        ensures { slice_get (rows (V.index live.now)) n ≡ Some result.now };

    /// Writes its id.
    fn write_id(&self, out: &mut Body)
        ensures { Adds out.old out.new (tokens_of (id_of self.now)) };
}

/// Which rows a page has.
#[derive(Drop)]
struct PageRows {
    /// The first of them.
    first: u32,
    /// The one past the last.
    end: u32,
    /// Whether more follow.
    more: bool,
}

/// Which rows a page has of so many. A page past the end has none.
fn page_of(page: u64, len: u32) -> PageRows
    ensures first { result.first ≡ min (100 * page) len }
    ensures end { result.end ≡ min (100 * page + 100) len }
    ensures more { result.more ≡ nat_lt (100 * page + 100) len }
{
    let first = 100 * u128::from(page);
    let end = first + 100;
    let len = u128::from(len);
    PageRows {
        first: first.min(len) as u32,
        end: end.min(len) as u32,
        more: end < len,
    }
}

/// Writes the ids of the rows from one up to another, without that.
fn write_ids_between<R: Numbered, V: View>(out: &mut Body, live: &V, first: u32, end: u32)
    requires rising { first ≤ end }
    requires there { end ≤ length (R.rows (V.index live.now)) }
    ensures { Adds out.old out.new (tokens_of (array (items_of
        (map R.id_of (rows_between (R.rows (V.index live.now)) first end))))) }
{
    out.begin_array();
    for n in first..end {
        R::at(live, n).write_id(out);
    }
    out.end_array();
}

/// Writes what stands behind a page's ids: whether more follow, and its number.
fn write_page_end(out: &mut Body, more: bool, page: u64)
    ensures { Adds out.old out.new (page_end more page) }
{
    out.key("more");
    out.boolean(more);
    out.key("page");
    out.u64(page);
}

/// Writes a page of rows.
fn write_page<R: Numbered, V: View>(out: &mut Body, live: &V, page: u64)
    ensures { Adds out.old out.new
        (tokens_of (page_tree R.id_of (R.rows (V.index live.now)) page)) }
{
    let rows = page_of(page, R::count(live));
    out.begin_object();
    out.key("ids");
    write_ids_between::<R, V>(out, live, rows.first, rows.end);
    write_page_end(out, rows.more, page);
    out.end_object();
}

/// The body of the page with a number.
fn body_of_page<R: Numbered, V: View>(alloc: Global, live: &V, page: u64) -> Result<Bytes, Memory>
    ensures { IfOk result (λ body. body
        ≡ compact_text (page_tree R.id_of (R.rows (V.index live.now)) page)) }
{
    let mut out = Body::new(alloc);
    write_page::<R, V>(&mut out, live, page);
    out.into_bytes()
}

/// The body of the page whose number a part spells, if it spells one. `Memory` where there is none
/// for it.
pub(crate) fn page_body<R: Numbered, V: View>(
    alloc: Global,
    live: &V,
    part: &[u8],
) -> Result<Option<Bytes>, Memory>
    ensures { IfOk result (λ body. body ≡ option_map compact_text
        (option_map (page_tree R.id_of (R.rows (V.index live.now))) (number_in part.now))) }
{
    match number(part) {
        Some(page) => Ok(Some(body_of_page::<R, V>(alloc, live, page)?)),
        None => Ok(None),
    }
}
