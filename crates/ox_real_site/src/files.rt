//! The two files of a folder.

ghost use Rattle.std.specs.Prelude.{◌≡◌, ◌↔◌, IfOk, IsTrue, IsUtf8, OnOk};
ghost use Rattle.ox_real_site.specs.Streams.{IsApart};
ghost use Rattle.ox_outside.specs.declared.site.Which.TheVariants.{A, B};

use ox_outside::Which;
use std::alloc::Global;
use std::fs::{File, OpenOptions};
use std::io;
use std::io::ErrorKind;
use std::os::fd::AsRawFd;
use std::os::unix::fs::FileExt;
use std::path::Path;
use std::rt::Files;

/// The files `a.ox` and `b.ox`.
#[derive(Drop)]
pub(crate) struct FilePair {
    a: File,
    b: File,
}

impl FilePair {
    /// Opens both files of the folder to read and to write, and makes them empty where they are
    /// absent. Then waits until the disk has the folder's list of names, which may be new, whether
    /// this run made the files or one before it that was stopped. An error where the folder's name
    /// isn't UTF-8, one of them can't be opened or made, a standard stream is closed, so that a
    /// file would get its number, another program has them, or the system can't say that the disk
    /// has the list. They are locked until the program ends, so that no second one opens them.
    pub(crate) fn open<R: Files<File = File>>(
        rt: &R,
        alloc: Global,
        folder: &[u8],
    ) -> io::Result<FilePair>
        ensures text { OnOk result (IsUtf8 folder.now) }
        ensures apart { IfOk result (λ pair. IsApart pair.a × IsApart pair.b) }
    {
        let Ok(folder) = str::from_utf8(folder) else {
            return Err(io::Error::from(ErrorKind::InvalidInput));
        };
        let folder = Path::new(folder);
        let pair = FilePair {
            a: open_in(rt, alloc, folder, "a.ox")?,
            b: open_in(rt, alloc, folder, "b.ox")?,
        };
        pair.lock()?;
        File::open(rt, folder)?.sync_all()?;
        Ok(pair)
    }

    /// Locks both files, until the program ends. An error where one of them has the number of a
    /// standard stream, or another program has it.
    fn lock(&self) -> io::Result<()>
        ensures { OnOk result (IsApart self.now.a × IsApart self.now.b) }
    {
        if !is_apart(&self.a) || !is_apart(&self.b) {
            return Err(io::Error::from(ErrorKind::InvalidInput));
        }
        if self.a.try_lock().is_err() || self.b.try_lock().is_err() {
            return Err(io::Error::from(ErrorKind::WouldBlock));
        }
        Ok(())
    }

    /// The file of this letter.
    fn file(&self, file: Which) -> &File
        ensures first { file ≡ A → result.now ≡ self.now.a }
        ensures second { file ≡ B → result.now ≡ self.now.b }
    {
        match file {
            Which::A => &self.a,
            Which::B => &self.b,
        }
    }

    /// How many bytes the file has. An error where the system can't tell.
    pub(crate) fn len(&self, file: Which) -> io::Result<u64> {
        Ok(self.file(file).metadata()?.len())
    }

    /// Fills the room with the file's bytes from this place on. An error where there are fewer, or
    /// reading fails.
    pub(crate) fn read(&self, file: Which, at: u64, into: &mut [u8]) -> io::Result<()> {
        self.file(file).read_exact_at(into, at)
    }

    /// Writes all of the bytes from this place on. After an error some of them may have been
    /// written.
    pub(crate) fn write(&self, file: Which, at: u64, bytes: &[u8]) -> io::Result<()> {
        self.file(file).write_all_at(bytes, at)
    }

    /// Waits until the disk has all that was written (`fsync`). An error where the system can't
    /// say so.
    pub(crate) fn sync(&self, file: Which) -> io::Result<()> {
        self.file(file).sync_all()
    }
}

/// Opens a file of a folder to read and to write, and makes it empty where it is absent.
fn open_in<R: Files<File = File>>(
    rt: &R,
    alloc: Global,
    folder: Path,
    name: &str,
) -> io::Result<File> {
    let mut how = OpenOptions::new();
    how.read(true).write(true).create(true);
    how.open(rt, folder.join(alloc, name)?.as_path())
}

/// Whether the file's number is none of the three of the standard streams. It is one of them where
/// that stream was closed when the file was opened.
fn is_apart(file: &File) -> bool
    ensures { IsTrue result ↔ IsApart file.now }
{
    file.as_raw_fd() > 2
}
