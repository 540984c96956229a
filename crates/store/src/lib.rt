// The exception store on the COW device.
#![tactic(auto)]

mod clean;
mod enter;
mod fault;
mod lasting;
mod open;
mod scan;
mod sectors;
mod shape;
mod spot;
mod store;
#[cfg(test)]
mod tests;
mod work;

pub use fault::StoreFault;
pub use store::{Store, WORK};
pub use work::Work;
