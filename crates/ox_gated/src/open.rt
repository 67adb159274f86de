//! The opening of two files.

ghost use Rattle.std.specs.Prelude.{◌≡◌, ◌≢◌, ◌+◌, ◌-◌, ◌≤◌, ◌<◌, ◌^◌, length, take};
ghost use Rattle.std.specs.Prelude.{slice_range, min, nat_lt};
ghost use Rattle.std.specs.Prelude.{◌==◌, ◌&&◌, Ok, None};
ghost use Rattle.std.specs.Prelude.{IsTrue, IfOk, IfErr, OnOk, OnErr, IsErrOf};
ghost use Rattle.ox_outside.specs.Counts.{IsFailure, Rose, StopsAtFault};
ghost use Rattle.ox_outside.specs.Files.{Files, file_of, other};
ghost use Rattle.ox_outside.specs.Runs.{OnlyLooks};
ghost use Rattle.ox_gated.specs.Layout.{is_closed, is_lawful, layout_of, summed_body_at};
ghost use Rattle.ox_gated.specs.OldReading.{current_as, growing_reading, is_followed, is_read};
ghost use Rattle.ox_gated.specs.OldReading.{old_reading, reading_as};
ghost use Rattle.ox_gated.specs.Opened.{IsBehindLawful, IsFault, IsFrontOf, IsUnpicked};
ghost use Rattle.ox_gated.specs.Opened.{found_of, tail_of};
ghost use Rattle.ox_gated.specs.OtherFile.{last_generation};
ghost use Rattle.ox_gated.specs.Pick.{choice_of, of_file};
ghost use Rattle.ox_gated.specs.Readers.{Examines, IsDisk, Opens, Reads};
ghost use Rattle.ox_gated.specs.Reading.{by_parts, is_led, reading};
ghost use Rattle.ox_gated.specs.Tail.{IsSettled};
ghost use Rattle.ox_gated.specs.declared.fault.GateFault.TheVariants.{NotStore};

use crate::fault::{Before, GateFault, Halt};
use crate::head::{Head, Opening, is_body, is_shut};
use crate::layout::{GENERATION_AT, SUMMED_BODY_AT, VERSION_AT};
use crate::pick::pick;
use crate::records::{Records, Walk, walk_from};
use crate::tail::Tail;
use ox_bytes::Bytes;
use ox_outside::{Failed, Site, Which};
use std::alloc::{AllocError, Global};

/// Syncs both files: then each crash image of the two is what a read gives.
pub fn settle<S: Site>(site: &mut S) -> Result<(), Failed>
    ensures settled { OnOk result (IsSettled S.Site site.new) }
    ensures looks { OnlyLooks S.Site site.old site.new }
    ensures failed { OnErr result (Rose (S.counts site.old).disk (S.counts site.new).disk) }
    ensures counted { StopsAtFault (IsFailure result) ⊥ ⊥ (S.counts site.old) (S.counts site.new) }
{
    site.sync(Which::A)?;
    site.sync(Which::B)
}

/// So many bytes of a file from this place on.
pub fn read_part<S: Site>(
    alloc: Global,
    site: &mut S,
    file: Which,
    at: u64,
    size: u64,
) -> Result<Vec<u8>, Halt>
    requires { IsTrue (S.told site.old) → at + size ≤ length (file_of (S.seen site.old) file) }
    ensures bytes { IsTrue (S.told site.old)
        → IfOk result (λ bytes.
        bytes.items ≡ slice_range (file_of (S.seen site.old) file) at (at + size)) }
    ensures size { IfOk result (λ bytes. length bytes.items ≡ size) }
    ensures looks { OnlyLooks S.Site site.old site.new }
    ensures failed { IsErrOf result Halt.Disk
        → Rose (S.counts site.old).disk (S.counts site.new).disk }
    ensures counted { StopsAtFault (IsErrOf result Halt.Disk) ⊥ ⊥
        (S.counts site.old) (S.counts site.new) }
{
    let mut bytes = blank(alloc, size as usize)?;
    site.read(file, at, &mut bytes)?;
    Ok(bytes)
}

/// Room for so many bytes.
fn blank(alloc: Global, size: usize) -> Result<Vec<u8>, AllocError>
    ensures { IfOk result (λ bytes. length bytes.items ≡ size) }
{
    Vec::from_elem(alloc, 0, size)
}

/// The length of a file, and its first 90 bytes, or all where it has fewer.
#[derive(Drop)]
pub struct Front {
    pub len: u64,
    pub bytes: Vec<u8>,
}

/// Reads the front of a file.
pub fn read_front<S: Site>(alloc: Global, site: &mut S, file: Which) -> Result<Front, Halt>
    ensures len { IsTrue (S.told site.old)
        → IfOk result (λ front. front.len ≡ length (file_of (S.seen site.old) file)) }
    ensures bytes { IsTrue (S.told site.old)
        → IfOk result (λ front.
        front.bytes.items ≡ take summed_body_at (file_of (S.seen site.old) file)) }
    ensures size { IfOk result (λ front.
        length front.bytes.items ≡ min summed_body_at front.len) }
    ensures looks { OnlyLooks S.Site site.old site.new }
    ensures failed { IsErrOf result Halt.Disk
        → Rose (S.counts site.old).disk (S.counts site.new).disk }
    ensures counted { StopsAtFault (IsErrOf result Halt.Disk) ⊥ ⊥
        (S.counts site.old) (S.counts site.new) }
{
    let len = site.len(file)?;
    let bytes = read_part(alloc, site, file, 0, len.min(SUMMED_BODY_AT as u64))?;
    Ok(Front { len, bytes })
}

/// The current file of two, its head and the length of its body, its front, and whether the other
/// file is closed.
#[derive(Drop)]
pub struct Examined {
    pub file: Which,
    pub opening: Opening,
    pub front: Front,
    pub other_closed: bool,
}

fn compare(a: Front, b: Front) -> Result<Examined, GateFault>
    ensures found { IfOk result (λ e.
        choice_of a.bytes.items b.bytes.items ≡ Ok (e.file, e.opening)) }
    ensures front { IfOk result (λ e. e.front ≡ of_file e.file a b) }
    ensures closed { let fronts : Files = record { a = a.bytes.items; b = b.bytes.items } in
        IfOk result (λ e. e.other_closed ≡ is_closed (file_of fronts (other e.file))) }
    ensures fault { IfErr result (IsUnpicked (choice_of a.bytes.items b.bytes.items)) }
    ensures behind { IfErr result IsBehindLawful }
    ensures lawful { IfOk result (λ e. IsTrue (is_lawful e.opening.head)) }
    ensures not_disk { ¬ IsDisk result }
{
    let (file, opening) = match pick(&a.bytes, &b.bytes) {
        Ok(current) => current,
        Err((file, at)) => return Err(refused_at(file, at)),
    };
    let (front, other_closed) = match file {
        Which::A => (a, is_shut(&b.bytes)),
        Which::B => (b, is_shut(&a.bytes)),
    };
    Ok(Examined {
        file,
        opening,
        front,
        other_closed,
    })
}

/// Finds out which file is current.
pub fn examine<S: Site>(alloc: Global, site: &mut S) -> Result<Examined, GateFault>
    ensures { Examines S.Site result site.old site.new }
{
    let a = read_front(alloc, site, Which::A)?;
    let b = read_front(alloc, site, Which::B)?;
    compare(a, b)
}

/// Syncs both files, and finds out which is current.
pub fn examine_settled<S: Site>(alloc: Global, site: &mut S) -> Result<Examined, GateFault>
    ensures examines { Examines S.Site result site.old site.new }
    ensures settled { ¬ IsDisk result → IsSettled S.Site site.new }
{
    match settle(site) {
        Ok(()) => examine(alloc, site),
        Err(Failed) => Err(GateFault::Halt(Halt::Disk)),
    }
}

/// What two files hold: the tail, and of the current file which it is, its head, its body and its
/// records.
#[derive(Drop)]
pub struct Opened {
    pub tail: Tail,
    pub file: Which,
    pub head: Head,
    pub body: Bytes,
    pub records: Records,
}

/// The body, and the records behind it.
fn found_or_fault(
    alloc: Global,
    examined: &Examined,
    body: Vec<u8>,
    rest: &[u8],
) -> Result<Opened, GateFault>
    requires fits { let e = examined.now in
        (layout_of e.opening.head.version).body_at + e.opening.size + length rest.now < 2 ^ 64 }
    requires size { length body.items ≡ examined.now.opening.size }
    requires lawful { IsTrue (is_lawful examined.now.opening.head) }
    ensures found { let e = examined.now in
        IfOk result (λ o.
        by_parts (layout_of e.opening.head.version) e.file e.opening body.items rest.now
        ≡ Ok (found_of o)) }
    ensures tail { IfOk result (λ o. o.tail ≡ tail_of o examined.now.other_closed) }
    ensures head { IfOk result (λ o. o.head ≡ examined.now.opening.head) }
    ensures fault { let e = examined.now in
        IfErr result
        (IsFault (by_parts (layout_of e.opening.head.version) e.file e.opening
        body.items rest.now)) }
    ensures behind { IfErr result IsBehindLawful }
    ensures not_disk { ¬ IsDisk result }
{
    let Opening { head, size } = examined.opening;
    let file = examined.file;
    let first = head.body_at() + size;
    let Walk { records, end } = walk_from(alloc, &head, first, rest).map_err(Halt::from)?;
    let body = Bytes::from_vec(body);
    match end {
        Ok(gate) => Ok(Opened {
            tail: Tail::at(
                file,
                head,
                first,
                records.len() as u64,
                gate,
                examined.other_closed,
            ),
            file,
            head,
            body,
            records,
        }),
        Err(at) => Err(GateFault::NotStore {
            file,
            at,
            before: Some(Before {
                head,
                body,
                records,
            }),
        }),
    }
}

/// Reads the body and the records of the current file. Its version has to be 2, or only this one,
/// where another file is to follow; then its generation isn't the greatest.
pub fn read_current<S: Site>(
    alloc: Global,
    site: &mut S,
    only: Option<u8>,
    examined: &Examined,
) -> Result<Opened, GateFault>
    requires front { IsTrue (S.told site.old)
        → IsFrontOf examined.now.front (file_of (S.seen site.old) examined.now.file) }
    requires size { let front = examined.now.front in
        length front.bytes.items ≡ min summed_body_at front.len }
    requires lawful { IsTrue (is_lawful examined.now.opening.head) }
    ensures found { let e = examined.now in
        IsTrue (S.told site.old)
        → IfOk result (λ o.
        current_as only e.file (file_of (S.seen site.old) e.file) e.opening ≡ Ok (found_of o)) }
    ensures tail { IfOk result (λ o. o.tail ≡ tail_of o examined.now.other_closed) }
    ensures head { IfOk result (λ o. o.head ≡ examined.now.opening.head) }
    ensures version { IfOk result (λ o. IsTrue (is_read only o.head.version)) }
    ensures generation { IsTrue (is_followed only)
        → IfOk result (λ o. o.head.generation ≢ last_generation) }
    ensures reads { let e = examined.now in
        Reads S.Site (λ files. current_as only e.file (file_of files e.file) e.opening)
        result site.old site.new }
{
    let file = examined.file;
    let Opening { head, size } = examined.opening;
    if !is_read(head.version, only) {
        return Err(refused_at(file, VERSION_AT as u64));
    }
    if is_unfollowed(&head, only) {
        return Err(refused_at(file, GENERATION_AT as u64));
    }
    let body_at = head.body_at();
    if is_cut(examined.front.len, body_at, size) {
        return Err(refused_at(file, body_at));
    }
    let end = body_at + size;
    let body = read_part(alloc, site, file, body_at, size)?;
    if !is_body(&head, &examined.front.bytes, &body) {
        return Err(refused_at(file, body_at));
    }
    let rest = read_part(alloc, site, file, end, examined.front.len - end)?;
    found_or_fault(alloc, examined, body, &rest)
}

/// Whether files of this version are read: 2, or only one that another file is to follow.
fn is_read(version: u8, only: Option<u8>) -> bool
    ensures { result ≡ is_read only version }
{
    match only {
        Some(only) => version == only,
        None => version == 2,
    }
}

/// Whether another file is to follow one with this head, as where only one version is told, and
/// can't.
fn is_unfollowed(head: &Head, only: Option<u8>) -> bool
    ensures { result ≡ (is_followed only && head.now.generation == last_generation) }
{
    only.is_some() && head.generation == u64::MAX
}

/// Whether a file of this length is too short for a body of this one that begins at this place.
pub fn is_cut(len: u64, body_at: u64, size: u64) -> bool
    ensures { result ≡ nat_lt len (body_at + size) }
{
    len < body_at || len - body_at < size
}

/// The fault of a test that fails at this place of a file, before which nothing was read.
pub fn refused_at(file: Which, at: u64) -> GateFault
    ensures { result ≡ NotStore file at None }
{
    GateFault::NotStore {
        file,
        at,
        before: None,
    }
}

/// Opens two files, of version 2 or only of one that another file is to follow: see `Tail::open`,
/// `Tail::open_old` and `Tail::open_growing`.
pub fn open_files<S: Site>(
    alloc: Global,
    site: &mut S,
    only: Option<u8>,
) -> Result<Opened, GateFault>
    ensures opens { Opens S.Site (reading_as only) result site.old site.new }
    ensures head { IfOk result (λ o.
        (o.tail.head ≡ o.head) × IsTrue (is_read only o.head.version)) }
    ensures generation { IsTrue (is_followed only)
        → IfOk result (λ o. o.head.generation ≢ last_generation) }
{
    match examine_settled(alloc, site) {
        Ok(examined) => read_current(alloc, site, only, &examined),
        Err(fault) => Err(fault),
    }
}

impl Tail {
    /// Opens two files of version 2. It begins with a sync of both, and changes nothing: at no
    /// moment does a crash leave anything that it didn't leave before. What is opened has a lawful
    /// head of version 2, whatever the site tells. Unless a call failed, each crash image of the
    /// two is then what a read gives.
    ///
    /// `NotStore` comes exactly where the files stand for nothing, with the file and the place of
    /// the first test that fails: 6 where the current file has another version, of which nothing
    /// more is read. `Halt` comes with `Disk` only where a call on a file failed, and with `Memory`
    /// where there is none for what the files hold.
    pub fn open<S: Site>(alloc: Global, site: &mut S) -> Result<Opened, GateFault>
        ensures opens { Opens S.Site (reading is_led) result site.old site.new }
        ensures head { IfOk result (λ o. (o.tail.head ≡ o.head) × (o.head.version ≡ 2)) }
    {
        open_files(alloc, site, None)
    }

    /// Opens two files of version 1, so that a checkpoint of a later version can follow. Of the
    /// tests it makes one more than `open`, between that of the version and that of the body:
    /// `NotStore` comes too with the current file and place 10, where its generation is
    /// 18,446,744,073,709,551,615, which no other follows. What is opened has a lawful head of
    /// version 1 and of a lesser generation, whatever the site tells.
    ///
    /// All else is as with `open`: it begins with a sync of both files and changes nothing, and
    /// unless a call failed each crash image of the two is then what a read gives. `NotStore` comes
    /// exactly by the first test that fails, `Halt` with `Disk` only where a call on a file failed,
    /// and with `Memory` where there is none for what the files hold.
    pub fn open_old<S: Site>(alloc: Global, site: &mut S) -> Result<Opened, GateFault>
        ensures opens { Opens S.Site old_reading result site.old site.new }
        ensures head { IfOk result (λ o. (o.tail.head ≡ o.head) × (o.head.version ≡ 1)) }
        ensures generation { IfOk result (λ o. o.head.generation ≢ last_generation) }
    {
        open_files(alloc, site, Some(1))
    }

    /// Opens two files of version 2, so that a file of version 3 can follow. All is as with
    /// `open_old`, but for the version: of the tests it makes one more than `open`, between that of
    /// the version and that of the body, so that what is opened has a lawful head of version 2 and
    /// of a generation that another can follow, whatever the site tells.
    ///
    /// It begins with a sync of both files and changes nothing. `NotStore` comes exactly by the
    /// first test that fails, `Halt` with `Disk` only where a call on a file failed, and with
    /// `Memory` where there is none for what the files hold.
    pub fn open_growing<S: Site>(alloc: Global, site: &mut S) -> Result<Opened, GateFault>
        ensures opens { Opens S.Site growing_reading result site.old site.new }
        ensures head { IfOk result (λ o. (o.tail.head ≡ o.head) × (o.head.version ≡ 2)) }
        ensures generation { IfOk result (λ o. o.head.generation ≢ last_generation) }
    {
        open_files(alloc, site, Some(2))
    }
}
