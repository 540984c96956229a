// The bytes of a store on its COW device: chunks, the header, areas of entries.
#![tactic(auto)]

mod area;
mod chunk;
mod exception;
mod header;
mod number;
#[cfg(test)]
mod tests;

pub use area::{entries_are_read_back, entry_at, picture};
pub use chunk::{ChunkSize, NoChunkSize};
pub use exception::{ENTRIES, ENTRY, Exception};
pub use header::{Header, HeaderFault, decode_header, encode_header, headers_are_read_back};
