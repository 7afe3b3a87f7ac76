//! What the program says.

/// The line on standard error for a command line that it can't read.
pub const USAGE: &str =
    "usage: complete build COLLECTION INDEX | ask COLLECTION SCRIPT | replay INDEX SCRIPT | serve INDEX PORT CONNS | trial N | upgrade INDEX NEW | import csv SOURCE INDEX | import jsonl SOURCE INDEX | excerpts COLLECTION SCRIPT | merge INDEX1 INDEX2 NEW | live INDEX SCRIPT\n";
