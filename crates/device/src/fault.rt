// Why a device refuses.
#[derive(Clone, Copy, Debug, PartialEq, Eq)]
pub enum DeviceFault {
    // the buffer is not 512 bytes, or bytes make no plain device
    Length,
    // this sector is not on the device
    Place(u32),
    // the device is gone, or went inside the call: at this sector, or at 0 in a flush, since a rule of the project
    // gives every refusal one place
    Gone(u32),
}
