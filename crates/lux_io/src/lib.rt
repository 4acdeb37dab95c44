//! Files in and bytes out. A [`Shelf`] is where files are read from and a [`Sink`] where bytes are written to; both count
//! their faults, so that every refusal above can be traced to what happened outside. [`FolderShelf`] and [`OutSink`] are the
//! real folder and standard output, [`MemShelf`] and [`MemSink`] stand in for them in tests.
#![tactic(auto)]

mod count;
mod folder;
mod mem_shelf;
mod mem_sink;
mod output;
mod put;
mod shelf;
mod sink;
mod take;
#[cfg(test)]
mod tests;

pub use folder::FolderShelf;
pub use mem_shelf::MemShelf;
pub use mem_sink::MemSink;
pub use output::OutSink;
pub use put::{PutFault, put_all};
pub use shelf::{OpenFault, ReadFailed, Shelf};
pub use sink::{Sink, WriteFailed};
pub use take::{TakeFault, take_file};
