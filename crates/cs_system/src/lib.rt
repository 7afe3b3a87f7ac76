//! The system's files, standard streams and sockets as the outside that the program meets.
//!
//! They tell nothing of their content: what the system gives and takes is outside of what is proved.
#![tactic(auto)]

mod acceptor;
mod bounds;
mod disk;
mod event_loop;
mod faults;
mod heads;
mod known;
pub mod laws;
mod living;
mod making;
mod phase;
mod placing;
mod room;
mod run_files;
mod run_hub;
mod says;
mod socket;
mod sockets;
mod standard;
mod streams;
mod tcp;
mod whole;

pub use acceptor::{Accept, Acceptor};
pub use bounds::KEEP_LEAST;
pub use disk::DiskFiles;
pub use heads::{FirstPart, HeadMark, first_part};
pub use run_files::RunFiles;
pub use run_hub::RunHub;
pub use socket::{Ends, Linger, Socket};
pub use standard::Standard;
pub use streams::{StreamFault, lend, read_stream};
pub use tcp::TcpHub;
