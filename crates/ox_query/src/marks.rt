//! The marks of inscriptions.

ghost use Rattle.std.specs.Prelude.{◌<◌, []};
ghost use Rattle.ox_replies.specs.Inscriptions.{mark_if, marks_tree};
ghost use Rattle.ox_query.specs.Written.{Adds, tokens_of, tokens_of_all};

use crate::bodies::Body;
use ox_envelope::mark;

/// Writes a mark's text, if the bit of this worth is set.
fn write_mark(out: &mut Body, marks: u16, worth: u16, text: &str)
    requires { 0 < worth }
    ensures { Adds out.old out.new
        (tokens_of_all (mark_if marks worth text.now [])) }
{
    if marks / worth % 2 == 1 {
        out.string(text);
    }
}

/// Writes the texts of marks, from the lowest bit on.
pub(crate) fn write_marks(out: &mut Body, marks: u16)
    ensures { Adds out.old out.new (tokens_of (marks_tree marks)) }
{
    out.begin_array();
    write_mark(out, marks, mark::EVEN, "even");
    write_mark(out, marks, mark::REPEATED, "repeated");
    write_mark(out, marks, mark::INCOMPLETE, "incomplete");
    write_mark(out, marks, mark::INPUT, "input");
    write_mark(out, marks, mark::OFFSET, "offset");
    write_mark(out, marks, mark::POINTER, "pointer");
    write_mark(out, marks, mark::PUSHNUM, "pushnum");
    write_mark(out, marks, mark::REINSCRIPTION, "reinscription");
    out.end_array();
}
