//! What the program meets outside, and the forms of it that lie in memory or over files.
pub(crate) mod connections;
pub(crate) mod failed;
pub(crate) mod failing;
pub(crate) mod file_sink;
pub(crate) mod file_store;
pub(crate) mod files;
pub(crate) mod hub;
pub(crate) mod mem_files;
pub(crate) mod mem_sink;
pub(crate) mod mem_store;
pub(crate) mod script;
pub(crate) mod script_hub;
pub(crate) mod sink;
pub(crate) mod store;

pub use failed::Failed;
pub use file_sink::FileSink;
pub use file_store::FileStore;
pub use files::Files;
pub use hub::{Event, Hub};
pub use mem_files::MemFiles;
pub use mem_sink::MemSink;
pub use mem_store::{MemStore, TiredStore};
pub use script::Scripted;
pub use script_hub::ScriptHub;
pub use sink::Sink;
pub use store::Store;
