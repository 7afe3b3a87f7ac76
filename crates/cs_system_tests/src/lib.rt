//! Tests of the system's files, streams and sockets, which are proved here once, and not again with what they test.
#![tactic(auto)]

#[cfg(test)]
mod equal;
#[cfg(test)]
mod files;
#[cfg(test)]
mod hubs;
#[cfg(test)]
mod sockets;
#[cfg(test)]
mod syncs;
#[cfg(test)]
mod weak;
