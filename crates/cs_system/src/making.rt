//! A file that is made beside its name, and takes the name once it is whole.
ghost use Rattle.std.specs.Prelude.{◌≡◌, ◌+◌, ◌-◌, ◌^◌, ◌++◌, ℕ, min, take, length, codes, IfOk, OnOk, OnErr};
ghost use Rattle.std.specs.Fmt.{decimal};
ghost use Rattle.std.specs.Io.KnownBytes.{Appends};
ghost use Rattle.std.specs.String.{string_bytes};

use crate::placing::{Steps, place};
use crate::says::{is_link, is_unsynced, older_of};
use crate::whole::write_whole;
use std::alloc::{AllocError, Global};
use std::fmt::Write;
use std::fs::{File, OpenFile, OpenOptions};
use std::io::{self, ErrorKind};
use std::os::unix::fs::FileExt;
use std::{fs, rt};

/// What stands behind an index file's name while it is made, with a number behind that.
const BUILDING: &str = ".building-";

/// The most numbers that are tried for a name beside.
const MOST_BESIDE: u32 = 1 << 16;

/// The most bytes that what stands behind a name takes.
const BESIDE_BYTES: usize = 16;

/// The most bytes of a file's name, without its folders, as the system has it.
const NAME_BYTES: usize = 255;

/// The memory of the names that a file which is made has.
#[derive(Drop)]
pub struct Site {
    /// The name that was asked for.
    pub name: String,
    /// The name that the file takes: that of the file which a link leads to, else the same.
    pub target: String,
    /// Where the file is made, once it is.
    pub beside: String,
}

impl Site {
    /// The names for a file of this name. It fails for want of memory, where a link leads to no file, and where the system can't say
    /// whether the name is a link's.
    pub fn of<R: rt::Files>(alloc: Global, rt: &R, name: &str) -> io::Result<Site>
        ensures { IfOk result (λ s. string_bytes s.name ≡ name.now) }
    {
        let target = if is_link(fs::symlink_metadata(rt, name))? {
            rt.canonicalize(alloc, name)?.into_string()
        } else {
            String::from_str(alloc, name)?
        };
        let room = target.len().saturating_add(BESIDE_BYTES);
        Ok(Site {
            name: String::from_str(alloc, name)?,
            target,
            beside: String::with_capacity(alloc, room)?,
        })
    }
}

/// A file that is being made. Where it is let go before it took its name, it is removed.
pub struct Making<'a, R: rt::Files + Drop> {
    rt: &'a R,
    file: R::File,
    // How many bytes it has.
    bytes: u64,
    target: String,
    beside: String,
    // It took its name.
    placed: bool,
}

impl<R: rt::Files + Drop> Drop for Making<'_, R> {
    fn drop(self) {
        if !self.placed {
            let _ = fs::remove_file(self.rt, self.beside.as_str());
        }
        let Self {
            rt: _,
            file: _,
            bytes: _,
            target: _,
            beside: _,
            placed: _,
        } = self;
    }
}

impl<'a, R: rt::Files + Drop> Making<'a, R> {
    /// Makes a file without bytes beside the target, with the mode of the one that has the name. It fails where that may not be
    /// written, or is no regular file.
    pub fn begin(rt: &'a R, target: String, mut beside: String) -> io::Result<Making<'a, R>>
        ensures { IfOk result (λ m. m.bytes ≡ 0) }
    {
        let older = older_of(fs::metadata(rt, target.as_str()))?;
        if older.is_some() {
            OpenOptions::new().write(true).open(rt, target.as_str())?;
        }
        let file = make_beside(rt, target.as_str(), &mut beside)?;
        let making = Making {
            rt,
            file,
            bytes: 0,
            target,
            beside,
            placed: false,
        };
        if let Some(mode) = older {
            making.file.set_permissions(mode)?;
        }
        Ok(making)
    }

    /// How many bytes were added.
    pub fn bytes(&self) -> u64
        ensures { result ≡ self.now.bytes }
    {
        self.bytes
    }

    /// Adds bytes at its end. Where it fails, some first ones of them.
    pub fn append(&mut self, bytes: &[u8]) -> io::Result<()>
        ensures ok { OnOk result (Appends (R.File.contents self.old.file) (R.File.contents self.new.file) bytes.now) }
        ensures begun { OnErr result ((k : ℕ) × Appends (R.File.contents self.old.file) (R.File.contents self.new.file) (take k bytes.now)) }
        ensures bytes { OnOk result (self.new.bytes ≡ min (self.old.bytes + length bytes.now) (2 ^ 64 - 1)) }
    {
        write_whole(&mut self.file, bytes)?;
        self.bytes = self.bytes.saturating_add(bytes.len() as u64);
        Ok(())
    }

    /// Puts it under its name, and gives it, with the number of its bytes. Where that fails before it has its name, it is removed.
    pub fn finish(mut self) -> io::Result<(R::File, u64)>
        ensures { IfOk result (λ p. (p.0 ≡ self.entry.file) × (p.1 ≡ self.entry.bytes)) }
    {
        let mut steps = OnDisk {
            rt: self.rt,
            file: &self.file,
            beside: self.beside.as_str(),
            target: self.target.as_str(),
            placed: false,
        };
        let answer = place(&mut steps);
        self.placed = steps.placed;
        answer?;
        let Self {
            rt: _,
            file,
            bytes,
            target: _,
            beside: _,
            placed: _,
        } = self;
        Ok((file, bytes))
    }
}

impl<R: rt::Files + Drop> Making<'_, R>
where
    R::File: FileExt,
{
    /// Fills `out` with the bytes from a place.
    pub fn read_at(&self, at: u64, out: &mut [u8]) -> io::Result<()> {
        self.file.read_exact_at(out, at)
    }
}

// A file that was written beside its name, on the system's devices.
#[derive(Drop)]
struct OnDisk<'s, R: rt::Files> {
    rt: &'s R,
    file: &'s R::File,
    beside: &'s str,
    target: &'s str,
    // It took its name.
    placed: bool,
}

impl<R: rt::Files> Steps for OnDisk<'_, R> {
    ghost use Rattle.std.specs.Prelude.{None};

    ghost stage = { λ _. None };

    fn sync(&mut self) -> io::Result<()> {
        self.file.sync_all()
    }

    fn take_name(&mut self) -> io::Result<()> {
        fs::rename(self.rt, self.beside, self.target)?;
        self.placed = true;
        Ok(())
    }

    fn sync_folder(&mut self) -> io::Result<()> {
        match sync_opened(File::open(self.rt, folder_of(self.target))) {
            Err(error) if is_unsynced(error.kind()) => Ok(()),
            answer => answer,
        }
    }
}

fn sync_opened<F: OpenFile + Drop>(opened: io::Result<F>) -> io::Result<()> {
    opened?.sync_all()
}

// The folder that a name is in.
fn folder_of(name: &str) -> &str {
    match name.rsplit_once('/') {
        Some(("", _)) => "/",
        Some((folder, _)) => folder,
        None => ".",
    }
}

// Makes a file in the folder of the target that wasn't there.
fn make_beside<R: rt::Files>(rt: &R, target: &str, beside: &mut String) -> io::Result<R::File> {
    let front = front_of(target);
    for number in 0..MOST_BESIDE {
        name_beside(front, number, beside)?;
        match OpenOptions::new()
            .read(true)
            .append(true)
            .create_new(true)
            .open(rt, beside.as_str())
        {
            Ok(file) => return Ok(file),
            Err(error) if error.kind() == ErrorKind::AlreadyExists => {}
            Err(error) => return Err(error),
        }
    }
    Err(ErrorKind::AlreadyExists.into())
}

// What the names beside a target begin with: the target, or its folder where its file's name is too long for more.
fn front_of(target: &str) -> &str {
    let file = match target.rsplit_once('/') {
        Some((_, file)) => file,
        None => target,
    };
    if file.len() <= NAME_BYTES - BESIDE_BYTES {
        return target;
    }
    target.strip_suffix(file).unwrap_or("")
}

// A name beside: what it begins with, that it is of a file that is made, and a number.
fn name_beside(front: &str, number: u32, beside: &mut String) -> Result<(), AllocError>
    ensures { OnOk result (string_bytes beside.new ≡ front.now ++ codes ".building-" ++ decimal number) }
{
    beside.clear();
    beside.push_str(front)?;
    beside.push_str(BUILDING)?;
    write!(beside, "{number}")
}
