//! The system's files as the files that the program meets.
ghost use Rattle.std.specs.Prelude.{◌≡◌, ◌⊎◌, ◌+◌, ◌<◌, ℕ, take, length, true, false, IsSomeAnd, IsOkAnd, IsSome, IfOk, IfErr, IsErr, OnErr, OnOk, Ok, Some, None};
ghost use Rattle.std.specs.Option.{ForSome, is_some};
ghost use Rattle.std.specs.Io.KnownBytes.{Appends};
ghost use Rattle.std.specs.IoError.{error_kind};
ghost use Rattle.cs_base.specs.outside.Causes.{Counted, one_more};
ghost use Rattle.std.specs.FinMap as map;
ghost use Rattle.std.specs.String.{string_bytes};
ghost use Rattle.cs_base.specs.outside.Outside.{Sets, appended, bytes_of, empty_file, finished, part, size_of};
ghost use Rattle.cs_system.specs.Contents.{known_size, made_of, untold, whole_bytes, IsLost, IsMade};
ghost use Rattle.cs_system.specs.Known.{content_of, IsKnownAt};

use crate::faults::Faults;
use crate::known::{Known, known_place};
use crate::making::{Making, Site};
use crate::run_files::{RunFiles, room};
use crate::says::{Found, found_of, is_absent};
use crate::streams::{lend, read_stream};
use cs_base::{Failed, Files, Memory};
use std::alloc::Global;
use std::fs::{File, OpenFile};
use std::io::{self, ErrorKind, Read};
use std::os::unix::fs::FileExt;
use std::{mem, rt};

/// The system's files. A name is a path. A regular file is read at places; a stream, as a pipe or a device, is read whole when its
/// size is asked, and never written; a folder fails.
///
/// They tell nothing of their content. A file that was opened under a name is that file from then on, whatever the name stands for
/// later; what can't be read any more fails. `create` makes a file beside the name, which takes the name at `finish`, whole. It is
/// removed where that can't be, and where these files are dropped before.
#[derive(Drop)]
pub struct DiskFiles<'a, R: rt::Files + Drop> {
    disk: Disk<'a, R>,
    faults: Faults,
}

impl<'a, R: rt::Files + Drop> DiskFiles<'a, R> {
    /// The files of this runtime, with no failure yet.
    pub fn new(alloc: Global, rt: &'a R) -> DiskFiles<'a, R>
        ensures { result.faults.count ≡ 0 }
    {
        DiskFiles {
            disk: Disk {
                rt,
                alloc,
                known: Vec::new(alloc),
                site: None,
            },
            faults: Faults::none(),
        }
    }
}

impl<R: rt::Files + Drop> Files for DiskFiles<'_, R>
where
    R::File: FileExt,
{
    ghost use Rattle.std.specs.Prelude.{None};

    ghost held = { λ _. None };

    ghost faults = { λ f. f.faults.count };

    /// What is known of the name answers, again and again.
    fn size(&mut self, name: &str) -> Result<Option<u64>, Failed>
        ensures known { ForSome (content_of self.old.disk.known.items name.now) (λ c. ForSome (known_size c) (λ n. result ≡ Ok (Some n))) }
        ensures kept { IfOk result (λ n. ForSome n (λ n. IsSomeAnd (content_of self.new.disk.known.items name.now) (λ c. ForSome (known_size c) (λ m. m ≡ n)))) }
        ensures told { ForSome untold (λ h. IfOk result (λ n. n ≡ size_of (map.get h name.now))) }
        ensures one { OnErr result (self.new.faults.count ≡ one_more self.old.faults.count) }
        ensures counted { Counted self.old.faults.count self.new.faults.count result }
    {
        self.faults.note(self.disk.size(name))
    }

    /// What is known of the name stays so, where the read fails too.
    fn read_at(&mut self, name: &str, at: u64, out: &mut [u8]) -> Result<(), Failed>
        ensures same { ForSome (content_of self.old.disk.known.items name.now) (λ _. self.new.disk.known.items ≡ self.old.disk.known.items) }
        ensures lent { ForSome (content_of self.old.disk.known.items name.now) (λ c. ForSome (whole_bytes c) (λ b. OnOk result (out.new ≡ part b at (length out.old)))) }
        ensures short { ForSome (content_of self.old.disk.known.items name.now) (λ c. ForSome (whole_bytes c) (λ b. OnErr result (length b < at + length out.old))) }
        ensures lost { ForSome (content_of self.old.disk.known.items name.now) (λ c. IsLost c → IsErr result) }
        ensures told { ForSome untold (λ h. OnOk result (out.new ≡ part (bytes_of (map.get h name.now)) at (length out.old))) }
        ensures one { OnErr result (self.new.faults.count ≡ one_more self.old.faults.count) }
        ensures counted { Counted self.old.faults.count self.new.faults.count result }
    {
        self.faults.note(self.disk.read_at(name, at, out))
    }

    fn create(&mut self, name: &str) -> Result<(), Failed>
        ensures made { OnOk result (IsSomeAnd (content_of self.new.disk.known.items name.now) IsMade) }
        ensures told { OnOk result (Sets untold name.now (λ _. empty_file) untold) }
        ensures told_err { OnErr result ((untold ≡ untold) ⊎ Sets untold name.now (λ _. empty_file) untold) }
        ensures one { OnErr result (self.new.faults.count ≡ one_more self.old.faults.count) }
        ensures counted { Counted self.old.faults.count self.new.faults.count result }
    {
        self.faults.note(self.disk.create(name))
    }

    fn append(&mut self, name: &str, bytes: &[u8]) -> Result<(), Failed>
        ensures handed_on { OnOk result (IsSomeAnd (made_of (content_of self.old.disk.known.items name.now)) (λ m. IsSomeAnd (made_of (content_of self.new.disk.known.items name.now)) (λ n. Appends (R.File.contents m.file) (R.File.contents n.file) bytes.now))) }
        ensures gone { OnErr result (made_of (content_of self.new.disk.known.items name.now) ≡ None) }
        ensures told { OnOk result (Sets untold name.now (appended bytes.now) untold) }
        ensures told_err { OnErr result ((k : ℕ) × Sets untold name.now (appended (take k bytes.now)) untold) }
        ensures one { OnErr result (self.new.faults.count ≡ one_more self.old.faults.count) }
        ensures counted { Counted self.old.faults.count self.new.faults.count result }
    {
        self.faults.note(self.disk.append(name, bytes))
    }

    fn finish(&mut self, name: &str) -> Result<(), Failed>
        ensures whole { OnOk result (IsSomeAnd (made_of (content_of self.old.disk.known.items name.now)) (λ m. content_of self.new.disk.known.items name.now ≡ Some (Content.Pieces m.file m.bytes))) }
        ensures gone { OnErr result (made_of (content_of self.new.disk.known.items name.now) ≡ None) }
        ensures told { OnOk result (Sets untold name.now finished untold) }
        ensures told_err { OnErr result (untold ≡ untold) }
        ensures one { OnErr result (self.new.faults.count ≡ one_more self.old.faults.count) }
        ensures counted { Counted self.old.faults.count self.new.faults.count result }
    {
        self.faults.note(self.disk.finish(name))
    }
}

impl<R: rt::Files + Drop> RunFiles for DiskFiles<'_, R>
where
    R::File: FileExt,
{
    fn look(&mut self, name: &str) -> Result<bool, Memory> {
        there(self.disk.size(name))
    }

    fn make_room(&mut self, name: &str) -> Result<(), Memory> {
        room(self.disk.make_room(name))
    }
}

// Whether a file was found, or memory ran out; what else fails is met again.
fn there(answer: io::Result<Option<u64>>) -> Result<bool, Memory>
    ensures memory { IfErr answer (λ e. error_kind e ≡ ErrorKind.OutOfMemory → IsErr result) }
    ensures err { IfErr answer (λ e. ¬ (error_kind e ≡ ErrorKind.OutOfMemory) → result ≡ Ok false) }
    ensures ok { IfOk answer (λ n. result ≡ Ok (is_some n)) }
{
    match answer {
        Ok(size) => Ok(size.is_some()),
        Err(error) if error.kind() == ErrorKind::OutOfMemory => Err(Memory),
        Err(_) => Ok(false),
    }
}

/// What is known of a file.
#[derive(Drop)]
pub(crate) enum Content<F, M> {
    /// It is open, and is read at places.
    Pieces {
        /// The open file.
        file: F,
        /// How many bytes it had when it was opened.
        bytes: u64,
    },
    /// All bytes that came of a stream.
    Whole(Vec<u8>),
    /// It is being made.
    Made(M),
    /// It can't be read any more.
    Lost,
}

impl<R: rt::Files + Drop> Content<R::File, Making<'_, R>>
where
    R::File: FileExt,
{
    fn is_made(&self) -> bool
        ensures yes { result ≡ true → IsMade self.now }
        ensures no { result ≡ false → made_of (Some self.now) ≡ None }
    {
        matches!(self, Content::Made(_))
    }

    fn size(&self) -> io::Result<u64>
        ensures known { ForSome (known_size self.now) (λ n. result ≡ Ok n) }
        ensures lost { IsLost self.now → IsErr result }
    {
        match self {
            Content::Pieces { file: _, bytes } => Ok(*bytes),
            Content::Whole(bytes) => Ok(bytes.len() as u64),
            Content::Made(making) => Ok(making.bytes()),
            Content::Lost => Err(ErrorKind::StaleNetworkFileHandle.into()),
        }
    }

    // Of a stream the range is lent; one that lies beyond its end fails, and no other.
    fn read_at(&self, at: u64, out: &mut [u8]) -> io::Result<()>
        ensures lent { ForSome (whole_bytes self.now) (λ b. OnOk result (out.new ≡ part b at (length out.old))) }
        ensures short { ForSome (whole_bytes self.now) (λ b. OnErr result (length b < at + length out.old)) }
        ensures lost { IsLost self.now → IsErr result }
    {
        match self {
            Content::Pieces { file, bytes: _ } => file.read_exact_at(out, at),
            Content::Whole(bytes) => lend(bytes, at, out),
            Content::Made(making) => making.read_at(at, out),
            Content::Lost => Err(ErrorKind::StaleNetworkFileHandle.into()),
        }
    }
}

// How a file that is open is kept: a stream with all its bytes.
fn opened_content<F: OpenFile + Read + Drop, M>(alloc: Global, file: F) -> io::Result<Content<F, M>>
    ensures whole { IfOk result (λ c. ForSome (whole_bytes c) (λ b. ForSome (F.remaining file) (λ r. b ≡ r))) }
{
    match found_of(&file.metadata()?)? {
        Found::Pieces { bytes } => Ok(Content::Pieces { file, bytes }),
        Found::Stream => Ok(Content::Whole(read_stream(alloc, file)?)),
    }
}

// The system's files, with its own answers.
#[derive(Drop)]
struct Disk<'a, R: rt::Files + Drop> {
    rt: &'a R,
    alloc: Global,
    // What is known of names, each once.
    known: Vec<Known<Content<R::File, Making<'a, R>>>>,
    // The names of a file that is to be made.
    site: Option<Site>,
}

impl<'a, R: rt::Files + Drop> Disk<'a, R>
where
    R::File: FileExt,
{
    fn size(&mut self, name: &str) -> io::Result<Option<u64>>
        ensures known { ForSome (content_of self.old.known.items name.now) (λ c. ForSome (known_size c) (λ n. result ≡ Ok (Some n))) }
        ensures kept { IfOk result (λ o. ForSome o (λ n. IsSomeAnd (content_of self.new.known.items name.now) (λ c. ForSome (known_size c) (λ m. m ≡ n)))) }
        ensures same { ForSome (content_of self.old.known.items name.now) (λ _. self.new.known.items ≡ self.old.known.items) }
    {
        match self.find(name)? {
            Some(place) => Ok(Some(self.known[place].content.size()?)),
            None => Ok(None),
        }
    }

    fn read_at(&mut self, name: &str, at: u64, out: &mut [u8]) -> io::Result<()>
        ensures same { ForSome (content_of self.old.known.items name.now) (λ _. self.new.known.items ≡ self.old.known.items) }
        ensures lent { ForSome (content_of self.old.known.items name.now) (λ c. ForSome (whole_bytes c) (λ b. OnOk result (out.new ≡ part b at (length out.old)))) }
        ensures short { ForSome (content_of self.old.known.items name.now) (λ c. ForSome (whole_bytes c) (λ b. OnErr result (length b < at + length out.old))) }
        ensures lost { ForSome (content_of self.old.known.items name.now) (λ c. IsLost c → IsErr result) }
    {
        match self.find(name)? {
            Some(place) => self.known[place].content.read_at(at, out),
            None => Err(ErrorKind::NotFound.into()),
        }
    }

    // Where the name is known. It is opened where it isn't yet; None where no file has it.
    fn find(&mut self, name: &str) -> io::Result<Option<usize>>
        ensures known { ForSome (content_of self.old.known.items name.now) (λ _. IsOkAnd result IsSome) }
        ensures same { ForSome (content_of self.old.known.items name.now) (λ _. self.new.known.items ≡ self.old.known.items) }
        ensures place { IfOk result (λ o. ForSome o (IsKnownAt self.new.known.items name.now)) }
    {
        if let Some(place) = known_place(&self.known, name) {
            return Ok(Some(place));
        }
        self.known.reserve(1)?;
        let own_name = String::from_str(self.alloc, name)?;
        match File::open(self.rt, name) {
            Ok(file) => {
                self.keep(own_name, opened_content(self.alloc, file))?;
                Ok(known_place(&self.known, name))
            }
            Err(error) if is_absent(error.kind()) => Ok(None),
            Err(error) => Err(error),
        }
    }

    // Keeps what is known of a name; that it is lost where it couldn't be read.
    fn keep(
        &mut self,
        name: String,
        content: io::Result<Content<R::File, Making<'a, R>>>,
    ) -> io::Result<()> {
        match content {
            Ok(content) => self.hold(name, content),
            Err(error) => {
                self.hold(name, Content::Lost)?;
                Err(error)
            }
        }
    }

    // Keeps what is known of a name, in the place of what was.
    #[tactic(auto, using(crate::proofs::KnownPlaces::pushed))]
    fn hold(&mut self, name: String, content: Content<R::File, Making<'a, R>>) -> io::Result<()>
        ensures { OnOk result (content_of self.new.known.items (string_bytes name) ≡ Some content.entry) }
    {
        match known_place(&self.known, name.as_str()) {
            Some(place) => {
                self.known[place] = Known { name, content };
                Ok(())
            }
            None => {
                self.known.push(Known { name, content })?;
                Ok(())
            }
        }
    }

    // Takes the memory for a file that is to be made.
    fn make_room(&mut self, name: &str) -> io::Result<()> {
        self.known.reserve(1)?;
        self.site = Some(Site::of(self.alloc, self.rt, name)?);
        Ok(())
    }

    fn create(&mut self, name: &str) -> io::Result<()>
        ensures { OnOk result (IsSomeAnd (content_of self.new.known.items name.now) IsMade) }
    {
        let Site {
            name,
            target,
            beside,
        } = self.site_of(name)?;
        let making = Making::begin(self.rt, target, beside)?;
        self.hold(name, Content::Made(making))
    }

    // The names of a file that is made, whose memory may be there.
    fn site_of(&mut self, name: &str) -> io::Result<Site>
        ensures { IfOk result (λ s. string_bytes s.name ≡ name.now) }
    {
        match self.site.take_if(|site| site.name.as_str() == name) {
            Some(site) => Ok(site),
            None => Site::of(self.alloc, self.rt, name),
        }
    }

    // Over a file whose content is known, exactly these bytes came to it. Where it fails, the file that was made is gone.
    fn append(&mut self, name: &str, bytes: &[u8]) -> io::Result<()>
        ensures ok { OnOk result (IsSomeAnd (made_of (content_of self.old.known.items name.now)) (λ m. IsSomeAnd (made_of (content_of self.new.known.items name.now)) (λ n. Appends (R.File.contents m.file) (R.File.contents n.file) bytes.now))) }
        ensures err { OnErr result (made_of (content_of self.new.known.items name.now) ≡ None) }
    {
        let mut making = self.take_made(name)?;
        making.append(bytes)?;
        self.put_back(name, Content::Made(making));
        Ok(())
    }

    // The file that was made is read from then on. Where it fails, it is gone.
    fn finish(&mut self, name: &str) -> io::Result<()>
        ensures ok { OnOk result (IsSomeAnd (made_of (content_of self.old.known.items name.now)) (λ m. content_of self.new.known.items name.now ≡ Some (Content.Pieces m.file m.bytes))) }
        ensures err { OnErr result (made_of (content_of self.new.known.items name.now) ≡ None) }
    {
        let (file, bytes) = self.take_made(name)?.finish()?;
        self.put_back(name, Content::Pieces { file, bytes });
        Ok(())
    }

    // Takes the file that is being made under this name, which is lost then as far as is known.
    fn take_made(&mut self, name: &str) -> io::Result<Making<'a, R>>
        ensures made { IfOk result (λ m. made_of (content_of self.old.known.items name.now) ≡ Some m) }
        ensures lost { OnOk result (IsSomeAnd (content_of self.new.known.items name.now) IsLost) }
        ensures err { OnErr result (made_of (content_of self.new.known.items name.now) ≡ None) }
    {
        let Some(place) = known_place(&self.known, name) else {
            return Err(ErrorKind::NotFound.into());
        };
        if !self.known[place].content.is_made() {
            return Err(ErrorKind::Unsupported.into());
        }
        match mem::replace(&mut self.known[place].content, Content::Lost) {
            Content::Made(making) => Ok(making),
            _ => Err(ErrorKind::Unsupported.into()),
        }
    }

    // Says of a name that is known what is known of it now.
    fn put_back(&mut self, name: &str, content: Content<R::File, Making<'a, R>>)
        ensures { IsSome (content_of self.old.known.items name.now) → content_of self.new.known.items name.now ≡ Some content.entry }
    {
        if let Some(place) = known_place(&self.known, name) {
            self.known[place].content = content;
        }
    }
}
