//! What a hub is asked before a run, so that want of memory can be told from a device that fails.
use cs_base::{Hub, Memory};

/// A hub that a run is prepared over. What it can't do is left for the run to meet, but for want of memory.
pub trait RunHub: Hub {
    /// Takes the memory that listening takes.
    fn make_room(&self) -> Result<(), Memory>;
}
