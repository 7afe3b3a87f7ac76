//! Files, sinks and streams of the system: what it does is in no clause.
use crate::equal::same;
use crate::weak::Weak;
use cs_base::{Failed, Files, Sink};
use cs_system::{DiskFiles, Standard, lend, read_stream};
use std::fs::{self, File, OpenFile, OpenOptions, Permissions};
use std::io::{self, BufWriter};
use std::os::unix::fs::PermissionsExt;
use std::test::Fail;

// Makes a folder that holds nothing.
fn make_empty(rt: &HostRuntime, folder: &str) -> io::Result<()> {
    let _ = fs::remove_dir_all(rt, folder);
    fs::create_dir(rt, folder)
}

// What is done to a file, and what that gives.
enum Call {
    Size(Result<Option<u64>, Failed>),
    Create(Result<(), Failed>),
    Append(&'static [u8], Result<(), Failed>),
    Finish(Result<(), Failed>),
    // so many bytes from a place on, at most four, where they are read
    Read(u64, usize, Option<&'static [u8]>),
    // past the files: it is written, lengthened, given a mode or another file's name, or has this mode, or holds this
    Write(&'static str),
    Lengthen(u64),
    GiveMode(u32),
    HasMode(u32),
    Rename(&'static str),
    Holds(&'static str),
}

// The file's name, and the call.
type Step = (&'static str, Call);

// Whether the call gives that.
fn gives(
    rt: &HostRuntime,
    files: &mut DiskFiles<'_, HostRuntime>,
    name: &str,
    call: &Call,
) -> bool {
    match call {
        Call::Size(want) => files.size(name) == *want,
        Call::Create(want) => files.create(name) == *want,
        Call::Append(bytes, want) => files.append(name, bytes) == *want,
        Call::Finish(want) => files.finish(name) == *want,
        Call::Read(at, len, want) => reads(files, name, *at, *len, *want),
        Call::Write(text) => fs::write(rt, name, *text).is_ok(),
        Call::Lengthen(len) => lengthen(rt, name, *len).is_ok(),
        Call::GiveMode(mode) => give_mode(rt, name, *mode).is_ok(),
        Call::HasMode(mode) => has_mode(rt, name, *mode),
        Call::Rename(to) => fs::rename(rt, name, *to).is_ok(),
        Call::Holds(text) => holds(rt, name, text),
    }
}

fn reads(
    files: &mut DiskFiles<'_, HostRuntime>,
    name: &str,
    at: u64,
    len: usize,
    want: Option<&[u8]>,
) -> bool {
    let mut piece = [0u8; 4];
    let out = &mut piece[..len.min(4)];
    match files.read_at(name, at, out) {
        Ok(()) => want == Some(&*out),
        Err(Failed) => want.is_none(),
    }
}

fn holds(rt: &HostRuntime, name: &str, text: &str) -> bool {
    match fs::read_to_string(rt, name) {
        Ok(found) => found.as_str() == text,
        Err(_) => false,
    }
}

fn give_mode(rt: &HostRuntime, name: &str, mode: u32) -> io::Result<()> {
    fs::set_permissions(rt, name, Permissions::from_mode(mode))
}

fn has_mode(rt: &HostRuntime, name: &str, mode: u32) -> bool {
    match fs::metadata(rt, name) {
        Ok(found) => found.permissions().mode() & 0o777 == mode,
        Err(_) => false,
    }
}

fn lengthen(rt: &HostRuntime, name: &str, len: u64) -> io::Result<()> {
    OpenOptions::new().write(true).open(rt, name)?.set_len(len)
}

// The first step that doesn't give what it is to give, in a folder that holds nothing at first, and how many names are there once
// the files are gone.
fn first_other(
    rt: &HostRuntime,
    folder: &str,
    steps: &[Step],
) -> io::Result<(Option<usize>, usize)> {
    make_empty(rt, folder)?;
    let other = first_failing(rt, steps);
    let names = names_in(rt, folder)?;
    fs::remove_dir_all(rt, folder)?;
    Ok((other, names))
}

fn first_failing(rt: &HostRuntime, steps: &[Step]) -> Option<usize> {
    let mut files = DiskFiles::new(rt.alloc(), rt);
    for (i, (name, call)) in steps.iter().enumerate() {
        if !gives(rt, &mut files, name, call) {
            return Some(i);
        }
    }
    None
}

/// How many names a folder holds.
pub fn names_in(rt: &HostRuntime, folder: &str) -> io::Result<usize> {
    let mut names = 0usize;
    for entry in fs::read_dir(rt, folder)? {
        let _entry = entry?;
        names = names.saturating_add(1);
    }
    Ok(names)
}

const PIECES: &str = "complete_pieces_test/a";

// The first name that a file has while it is made; here an earlier run left one.
const LEFT: &str = "complete_pieces_test/a.building-0";

// The name holds what it held until the file is finished. One that isn't finished is gone with the files; one that others left stays.
const APPENDED: &[Step] = &[
    (LEFT, Call::Write("left")),
    (PIECES, Call::Size(Ok(None))),
    (PIECES, Call::Create(Ok(()))),
    (PIECES, Call::Size(Ok(Some(0)))),
    (PIECES, Call::Append(b"kept ", Ok(()))),
    (PIECES, Call::Append(b"open", Ok(()))),
    (PIECES, Call::Size(Ok(Some(9)))),
    (PIECES, Call::Write("older and longer")),
    (PIECES, Call::Read(5, 4, Some(b"open"))),
    (PIECES, Call::Read(6, 4, None)),
    (PIECES, Call::Finish(Ok(()))),
    (PIECES, Call::Holds("kept open")),
    (PIECES, Call::Size(Ok(Some(9)))),
    (PIECES, Call::Read(0, 4, Some(b"kept"))),
    (PIECES, Call::Read(3, 4, Some(b"t op"))),
    (PIECES, Call::Append(b"no", Err(Failed))),
    (PIECES, Call::Finish(Err(Failed))),
    (PIECES, Call::Create(Ok(()))),
    (PIECES, Call::Append(b"anew", Ok(()))),
    (PIECES, Call::Read(0, 4, Some(b"anew"))),
    (PIECES, Call::Holds("kept open")),
    (LEFT, Call::Holds("left")),
];

const FAILURES: &str = "complete_failures_test";

const SHORT: &str = "complete_failures_test/a";

// A folder and a short file fail.
const REFUSED: &[Step] = &[
    (SHORT, Call::Write("short")),
    (FAILURES, Call::Size(Err(Failed))),
    (FAILURES, Call::Read(0, 4, None)),
    (FAILURES, Call::Create(Err(Failed))),
    ("complete_failures_test/a/below", Call::Size(Ok(None))),
    ("complete_failures_test/a/below", Call::Create(Err(Failed))),
    (SHORT, Call::Read(2, 4, None)),
    (SHORT, Call::Read(u64::MAX, 4, None)),
    (SHORT, Call::Read(1, 4, Some(b"hort"))),
    (SHORT, Call::Append(b"no", Err(Failed))),
    (SHORT, Call::Size(Ok(Some(5)))),
];

const FIRST: &str = "complete_turns_test/a";

const SECOND: &str = "complete_turns_test/b";

const THIRD: &str = "complete_turns_test/c";

// A file is that file though its name is another one's, also behind a read that failed, and though others were read. One that
// takes a name has the mode of the file that had it.
const BY_TURNS: &[Step] = &[
    (FIRST, Call::Write("kept")),
    (FIRST, Call::Size(Ok(Some(4)))),
    (SECOND, Call::Write("another")),
    (SECOND, Call::Size(Ok(Some(7)))),
    (SECOND, Call::Rename(FIRST)),
    (FIRST, Call::Read(2, 4, None)),
    (FIRST, Call::Read(0, 4, Some(b"kept"))),
    (SECOND, Call::Read(0, 4, Some(b"anot"))),
    (THIRD, Call::Write("third")),
    (THIRD, Call::Read(0, 4, Some(b"thir"))),
    (FIRST, Call::Read(0, 4, Some(b"kept"))),
    (FIRST, Call::GiveMode(0o604)),
    (FIRST, Call::Create(Ok(()))),
    (FIRST, Call::Read(0, 4, None)),
    (FIRST, Call::Finish(Ok(()))),
    (FIRST, Call::HasMode(0o604)),
    (FIRST, Call::Holds("")),
];

const LARGE: &str = "complete_large_test/a";

// More than 32 bits have.
const SIZE: u64 = (1 << 32) + 9;

const LENGTHENED: &[Step] = &[
    (LARGE, Call::Write("first")),
    (LARGE, Call::Lengthen(SIZE)),
    (LARGE, Call::Size(Ok(Some(SIZE)))),
    (LARGE, Call::Read(SIZE - 4, 4, Some(b"\0\0\0\0"))),
    (LARGE, Call::Read(SIZE - 3, 4, None)),
];

// A device is read once and never written. A file that says that it has no bytes may have some.
const DEVICES: &[Step] = &[
    ("/dev/null", Call::Size(Ok(Some(0)))),
    ("/dev/null", Call::Size(Ok(Some(0)))),
    ("/dev/null", Call::Read(0, 0, Some(b""))),
    ("/dev/null", Call::Read(0, 1, None)),
    ("/dev/null", Call::Create(Err(Failed))),
    ("/proc/sys/kernel/ostype", Call::Size(Ok(Some(6)))),
    ("/proc/sys/kernel/ostype", Call::Read(0, 4, Some(b"Linu"))),
];

// A folder, what is done there, and how many names it has behind that.
const FOLDERS: &[(&str, &[Step], usize)] = &[
    ("complete_pieces_test", APPENDED, 2),
    (FAILURES, REFUSED, 1),
    ("complete_turns_test", BY_TURNS, 2),
    ("complete_large_test", LENGTHENED, 1),
    ("complete_device_test", DEVICES, 0),
];

#[test]
fn files_give_what_the_system_gives(rt: HostRuntime) -> Result<(), Fail> {
    for (folder, steps, names) in FOLDERS {
        let want = (None, *names);
        same(&rt, &first_other(&rt, folder, steps)?, &want, *folder);
    }
    Ok(())
}

#[test]
fn a_sink_hands_on_all_bytes_or_fails(rt: HostRuntime) -> Result<(), Fail> {
    const FOLDER: &str = "complete_sink_test";
    const NAME: &str = "complete_sink_test/a";
    make_empty(&rt, FOLDER)?;
    let mut sink = Standard::new(BufWriter::new(rt.alloc(), File::create(&rt, NAME)?)?);
    sink.put(b"one line\n")?;
    sink.put(b"")?;
    let written = fs::read_to_string(&rt, NAME)?;
    same(&rt, &written.as_str(), &"one line\n", "what was put");
    let mut full = Standard::new(OpenOptions::new().write(true).open(&rt, "/dev/full")?);
    same(&rt, &full.put(b"no room"), &Err(Failed), "a full device");
    let mut weak = Standard::new(Weak { calls: 0 });
    let puts = (weak.put(b"0123456"), weak.put(b"7"));
    same(&rt, &puts, &(Ok(()), Err(Failed)), "a writer that waits");
    fs::remove_dir_all(&rt, FOLDER)?;
    Ok(())
}

// A place, and four bytes from there on, where there are so many.
const LENT: &[(u64, Option<[u8; 4]>)] = &[
    (2, Some(*b"pipe")),
    (0, Some(*b"a pi")),
    (3, None),
    (u64::MAX, None),
];

#[test]
fn a_stream_is_lent_as_it_was_read(rt: HostRuntime) -> Result<(), Fail> {
    let bytes = read_stream(rt.alloc(), &b"a pipe"[..])?;
    same(&rt, &bytes.as_slice(), &b"a pipe".as_slice(), "kept");
    for (at, want) in LENT {
        same(&rt, &four_from(&bytes, *at), want, *at);
    }
    Ok(())
}

fn four_from(bytes: &[u8], at: u64) -> Option<[u8; 4]> {
    let mut piece = [0u8; 4];
    match lend(bytes, at, &mut piece) {
        Ok(()) => Some(piece),
        Err(_) => None,
    }
}
