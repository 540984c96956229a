// Devices of 512-byte sectors: what each means, and two of them.
#![tactic(auto)]

mod checks;
mod device;
mod fault;
mod fuse;
mod plain;
mod power;
mod range;
mod rules;
#[cfg(test)]
mod tests;

pub use checks::SECTOR;
pub use device::Device;
pub use fault::DeviceFault;
pub use fuse::FuseDevice;
pub use plain::PlainDevice;
pub use power::PowerCut;
pub use range::{read_sectors, write_sectors, write_zeros};
pub use rules::fates_are_rules;
