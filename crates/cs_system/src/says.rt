//! What the program makes of the system's answers.
ghost use Rattle.std.specs.Prelude.{◌≡◌, ◌↔◌, ◌<◌, IsTrue, IfOk, IfErr, IsErr, IsOkAnd, IsSomeAnd, Ok, Some, None, false};
ghost use Rattle.std.specs.Fs.{metadata_len, metadata_mode, permissions_mode, file_type, IsDir, IsFile, IsSymlink};
ghost use Rattle.std.specs.IoError.{error_kind};
ghost use Rattle.cs_system.specs.SystemErrors.{SaysAbsent, SaysUnsynced};

use std::fs::{Metadata, Permissions};
use std::io::{self, ErrorKind};

/// How a file is read.
#[derive(Clone, Copy, PartialEq, Eq)]
pub enum Found {
    /// At places, of so many bytes.
    Pieces {
        /// The number of bytes, which isn't 0.
        bytes: u64,
    },
    /// To its end, once: what comes isn't told before.
    Stream,
}

/// How an open file is read, by what the system says of it. A folder fails. A regular file that says that it has no bytes may have
/// some, as those under `/proc` do.
pub fn found_of(found: &Metadata) -> io::Result<Found>
    ensures file { IsFile (file_type found.now) → 0 < metadata_len found.now → result ≡ Ok (Found.Pieces (metadata_len found.now)) }
    ensures silent { IsFile (file_type found.now) → metadata_len found.now ≡ 0 → result ≡ Ok Found.Stream }
    ensures folder { IsDir (file_type found.now) → IsErr result }
    ensures stream { ¬ IsFile (file_type found.now) → ¬ IsDir (file_type found.now) → result ≡ Ok Found.Stream }
{
    if found.is_dir() {
        return Err(ErrorKind::IsADirectory.into());
    }
    if found.is_file() && found.len() > 0 {
        return Ok(Found::Pieces { bytes: found.len() });
    }
    Ok(Found::Stream)
}

/// The mode of the file that a new one takes the name of, by what the system says of the name: None where there is none. It fails
/// where something else has the name, as a folder or a device.
pub fn older_of(found: io::Result<Metadata>) -> io::Result<Option<Permissions>>
    ensures file { IfOk found (λ m. IsFile (file_type m) → IsOkAnd result (λ o. IsSomeAnd o (λ p. permissions_mode p ≡ metadata_mode m))) }
    ensures other { IfOk found (λ m. ¬ IsFile (file_type m) → IsErr result) }
    ensures absent { IfErr found (λ e. SaysAbsent (error_kind e) → result ≡ Ok None) }
    ensures err { IfErr found (λ e. ¬ SaysAbsent (error_kind e) → IsErr result) }
{
    match found {
        Ok(found) if found.is_file() => Ok(Some(found.permissions())),
        Ok(_) => Err(ErrorKind::Unsupported.into()),
        Err(error) if is_absent(error.kind()) => Ok(None),
        Err(error) => Err(error),
    }
}

/// Whether a link has a name, by what the system says of the name itself. That no file has it is no link; where the system can't
/// say, it fails.
pub fn is_link(found: io::Result<Metadata>) -> io::Result<bool>
    ensures found { IfOk found (λ m. IsOkAnd result (λ b. IsTrue b ↔ IsSymlink (file_type m))) }
    ensures absent { IfErr found (λ e. SaysAbsent (error_kind e) → result ≡ Ok false) }
    ensures err { IfErr found (λ e. ¬ SaysAbsent (error_kind e) → IsErr result) }
{
    match found {
        Ok(found) => Ok(found.is_symlink()),
        Err(error) if is_absent(error.kind()) => Ok(false),
        Err(error) => Err(error),
    }
}

/// Whether the system says so of a name that no file has.
pub fn is_absent(kind: ErrorKind) -> bool
    ensures { IsTrue result ↔ SaysAbsent kind }
{
    kind == ErrorKind::NotFound || kind == ErrorKind::NotADirectory
}

/// Whether the system says so where a folder can't be synced at all: its file system syncs none, or it may not be read.
pub fn is_unsynced(kind: ErrorKind) -> bool
    ensures { IsTrue result ↔ SaysUnsynced kind }
{
    kind == ErrorKind::InvalidInput
        || kind == ErrorKind::Unsupported
        || kind == ErrorKind::PermissionDenied
}

/// Whether a call is made again: where a signal came first, and nothing else did.
pub fn is_again(kind: ErrorKind) -> bool
    ensures { IsTrue result ↔ (kind ≡ ErrorKind.Interrupted) }
{
    kind == ErrorKind::Interrupted
}
