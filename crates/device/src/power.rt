// Power cuts that a program can play.
ghost use Rattle.std.specs.Prelude.{◌≡◌, false, MatchOption};
ghost use Rattle.device.specs.Disk.{Cut};

use crate::device::Device;

// A device that a program can take through a power cut.
pub trait PowerCut: Device {
    // The device that is left, with one possibility a sector.
    type Left: Device;

    // Nothing is left only of a device that was off and that no power brings back.
    fn power_cut(self) -> Option<Self::Left>
        ensures { MatchOption result ((Self.disk self).on ≡ false) (λ x. Cut (Self.disk self) (Self.Left.disk x)) };
}
