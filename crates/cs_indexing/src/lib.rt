//! The commands that write an index file, of a source, of another index file or of two; and what these share with the other commands: the
//! words of the command line, the files that they read, and how a run ends.
//!
//! What they do stands in `specs/Build.antt`, `Upgrade.antt` and `Merge.antt`.
#![tactic(auto)]

mod build;
mod collection;
mod ending;
mod files;
mod merge;
mod said;
mod saving;
mod sources;
mod unread;
mod upgrade;
mod whole;
mod words;

pub use build::build_index;
pub use collection::{CollectionFault, Imaged, image_of_collection, want_of};
pub use ending::{RunStop, status_of, tell};
pub use files::{HeldFile, told_size};
pub use merge::merge_indexes;
pub use said::put_all;
pub use sources::{ImportFault, SourceFault, read_collection};
pub use unread::{ScriptFault, ScriptStop};
pub use upgrade::upgrade_index;
pub use whole::open_held;
pub use words::{Command, Form, HitForm, command_of, conns_of, port_of, trial_of};
