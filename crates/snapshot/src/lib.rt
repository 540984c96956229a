// A snapshot of an origin: the pair of an origin and the store of its copies.
#![tactic(auto)]

mod fault;
mod opening;
mod pair;
mod reads;
mod state;
#[cfg(test)]
mod tests;
mod writes;

pub use fault::{Fault, FaultNumbers};
pub use pair::Pair;
pub use state::{Held, OriginWrite, State, Status};
