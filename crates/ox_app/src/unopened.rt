//! Files that weren't opened.

ghost use Rattle.std.specs.Prelude.{◌≡◌, ◌≢◌, IfOk};
ghost use Rattle.ox_outside.specs.Counts.{StopsAtFault};
ghost use Rattle.ox_outside.specs.Runs.{OnlyTalks};
ghost use Rattle.ox_app.specs.Status.{IsUnopened, open_status};
ghost use Rattle.ox_app.specs.Unopened.{LogsUnopened, UnopenedAs, letter_of, not_store_line};
ghost use Rattle.ox_app.specs.declared.status.Status.TheVariants as ends;

use crate::show::say;
use crate::status::Status;
use ox_bytes::{Bytes, Memory};
use ox_outside::{Site, Which};
use ox_store::OpenFault;
use std::alloc::Global;

/// The letter of a file.
fn letter(file: Which) -> &'static str
    ensures { result.now ≡ letter_of file }
{
    match file {
        Which::A => "a",
        Which::B => "b",
    }
}

/// The line of files that are no store.
#[tactic(auto, unfolding(crate::specs::Unopened::not_store_line))]
fn not_store_text(alloc: Global, file: Which, at: u64) -> Result<Bytes, Memory>
    ensures { IfOk result (λ line. line ≡ not_store_line (record { file = file; at = at })) }
{
    let letter = letter(file);
    let text = format!(in alloc; "not a store {letter} {at}\n")?;
    Ok(Bytes::from_vec(text.into_bytes()))
}

/// How a run ends whose files weren't opened.
pub fn unopened(fault: OpenFault) -> Status
    ensures { result ≡ open_status fault }
{
    match fault {
        OpenFault::NotStore { .. } => Status::NotStore,
        OpenFault::Halt(halt) => Status::halted(halt),
    }
}

/// Shows why files weren't opened, where they are no store, and says how the run ends: `NotStore`
/// then, `DiskFault` where a call on a file failed, and `Memory` where there was none.
pub fn explain<S: Site>(alloc: Global, fault: OpenFault, site: &mut S) -> Status
    ensures status { IsUnopened result }
    ensures says { UnopenedAs S.Site fault result site.old site.new }
    ensures counted { StopsAtFault ⊥ ⊥ (result ≡ ends.NotStore)
        (S.counts site.old) (S.counts site.new) }
    ensures talks { OnlyTalks S.Site (LogsUnopened fault) site.old site.new }
{
    match fault {
        OpenFault::NotStore { file, at } => match not_store_text(alloc, file, at) {
            Ok(line) => {
                say(site, line.as_slice());
                Status::NotStore
            }
            Err(Memory) => Status::Memory,
        },
        OpenFault::Halt(halt) => Status::halted(halt),
    }
}
