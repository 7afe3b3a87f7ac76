//! What is handed to the device before a file has its name, and behind that: the system's files, with a count of it.
use crate::equal::same;
use crate::files::names_in;
use cs_base::{Failed, Files};
use cs_system::DiskFiles;
use std::alloc::Allocator;
use std::cell::Cell;
use std::fs::{self, File, Metadata, OpenFile, OpenOptions, Permissions};
use std::io::{self, ErrorKind, Read, Seek, SeekFrom, Write};
use std::os::unix::fs::FileExt;
use std::rt;
use std::test::Fail;

// The system's files. Each handing to the device is counted, and one of them fails.
#[derive(Drop)]
struct Counting<'a> {
    rt: &'a HostRuntime,
    syncs: &'a Cell<u32>,
    failing: u32,
}

#[derive(Drop)]
struct Counted<'a> {
    file: File,
    syncs: &'a Cell<u32>,
    failing: u32,
}

impl<'a> rt::Files for Counting<'a> {
    type File = Counted<'a>;

    type Dir = <HostRuntime as rt::Files>::Dir;

    fn open_file(&self, how: &OpenOptions, path: &str) -> io::Result<Counted<'a>> {
        Ok(Counted {
            file: self.rt.open_file(how, path)?,
            syncs: self.syncs,
            failing: self.failing,
        })
    }

    fn open_dir(&self, path: &str) -> io::Result<Self::Dir> {
        self.rt.open_dir(path)
    }

    fn metadata(&self, path: &str) -> io::Result<Metadata> {
        self.rt.metadata(path)
    }

    fn symlink_metadata(&self, path: &str) -> io::Result<Metadata> {
        self.rt.symlink_metadata(path)
    }

    fn copy(&self, from: &str, to: &str) -> io::Result<u64> {
        self.rt.copy(from, to)
    }

    fn rename(&self, from: &str, to: &str) -> io::Result<()> {
        self.rt.rename(from, to)
    }

    fn remove_file(&self, path: &str) -> io::Result<()> {
        self.rt.remove_file(path)
    }

    fn create_dir(&self, path: &str) -> io::Result<()> {
        self.rt.create_dir(path)
    }

    fn remove_dir(&self, path: &str) -> io::Result<()> {
        self.rt.remove_dir(path)
    }

    fn remove_dir_all<B: Allocator>(&self, alloc: B, path: &str) -> io::Result<()> {
        self.rt.remove_dir_all(alloc, path)
    }
}

impl Read for Counted<'_> {
    fn read(&mut self, buf: &mut [u8]) -> io::Result<usize> {
        self.file.read(buf)
    }
}

impl Write for Counted<'_> {
    fn write(&mut self, buf: &[u8]) -> io::Result<usize> {
        self.file.write(buf)
    }

    fn flush(&mut self) -> io::Result<()> {
        self.file.flush()
    }
}

impl Seek for Counted<'_> {
    fn seek(&mut self, to: SeekFrom) -> io::Result<u64> {
        self.file.seek(to)
    }
}

impl FileExt for Counted<'_> {
    fn read_at(&self, buf: &mut [u8], offset: u64) -> io::Result<usize> {
        self.file.read_at(buf, offset)
    }

    fn write_at(&self, buf: &[u8], offset: u64) -> io::Result<usize> {
        self.file.write_at(buf, offset)
    }
}

impl OpenFile for Counted<'_> {
    fn metadata(&self) -> io::Result<Metadata> {
        self.file.metadata()
    }

    fn set_len(&self, size: u64) -> io::Result<()> {
        self.file.set_len(size)
    }

    fn sync_all(&self) -> io::Result<()> {
        let count = self.syncs.get().saturating_add(1);
        self.syncs.set(count);
        if count == self.failing {
            return Err(ErrorKind::Other.into());
        }
        self.file.sync_all()
    }

    fn sync_data(&self) -> io::Result<()> {
        self.file.sync_data()
    }

    fn set_permissions(&self, perm: Permissions) -> io::Result<()> {
        self.file.set_permissions(perm)
    }
}

// How a file is finished, how often something is handed to the device until then, how many bytes have its name behind that, and how
// many names there are.
type Finished = (Result<(), Failed>, u32, u64, usize);

const FOLDER: &str = "complete_sync_test";

const NAME: &str = "complete_sync_test/a";

fn finished(rt: &HostRuntime, failing: u32) -> Result<Finished, Fail> {
    let _ = fs::remove_dir_all(rt, FOLDER);
    fs::create_dir(rt, FOLDER)?;
    fs::write(rt, NAME, "older")?;
    let syncs = Cell::new(0);
    let counting = Counting {
        rt,
        syncs: &syncs,
        failing,
    };
    let mut files = DiskFiles::new(rt.alloc(), &counting);
    files.create(NAME)?;
    files.append(NAME, b"new")?;
    let answer = files.finish(NAME);
    let bytes = fs::metadata(rt, NAME)?.len();
    let names = names_in(rt, FOLDER)?;
    fs::remove_dir_all(rt, FOLDER)?;
    Ok((answer, syncs.get(), bytes, names))
}

// The handing that fails, and what comes of it: that of the file leaves the older one alone, that of the folder the new one.
const ROWS: &[(u32, Finished)] = &[
    (0, (Ok(()), 2, 3, 1)),
    (1, (Err(Failed), 1, 5, 1)),
    (2, (Err(Failed), 2, 3, 1)),
];

#[test]
fn a_file_is_handed_to_the_device_and_then_its_folder(rt: HostRuntime) -> Result<(), Fail> {
    for (failing, want) in ROWS {
        same(&rt, &finished(&rt, *failing)?, want, *failing);
    }
    Ok(())
}
