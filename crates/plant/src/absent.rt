// What a make of plants answers where it has nothing.
ghost use Rattle.std.specs.Prelude.{◌≡◌};
ghost use Rattle.plant.specs.Points.{fault_at};

use crate::fault::PlantFault;

// Nothing of the plant serves the point. The layer is that of the plant's make.
#[derive(Clone, Copy, Debug, PartialEq)]
pub struct Absent<const LAYER: u16> {
    pub point: u16,
}

impl<const LAYER: u16> From<Absent<LAYER>> for PlantFault {
    ghost from_gives = { λ e r. r ≡ fault_at LAYER e.point };

    fn from(fault: Absent<LAYER>) -> PlantFault {
        PlantFault {
            point: fault.point,
            layer: LAYER,
        }
    }
}
