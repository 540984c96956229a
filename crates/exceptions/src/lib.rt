// The exceptions of a store in memory, and the search by key that finds one.
#![tactic(auto)]

mod edges;
mod fault;
mod figures;
mod search;
mod table;
#[cfg(test)]
mod tests;

pub use edges::edges_hold;
pub use fault::TableFault;
pub use figures::{fills_area, follows};
pub use search::{Keyed, find};
pub use table::{ExceptionTable, New, Old};
