//! Tests of the public calls of the crates of Arrow that no capture of `examples/` shows: faults as texts, room that is
//! reserved, and calls that no job of the program makes.
#![tactic(auto)]

#[cfg(test)]
mod arrays;
#[cfg(test)]
mod buffers;
#[cfg(test)]
mod faults;
#[cfg(test)]
mod files;
#[cfg(test)]
mod ipc;
#[cfg(test)]
mod schemas;
