// How a plant refuses, and how a scan refuses over it.
ghost use Rattle.std.specs.Prelude.{◌≡◌};
ghost use Rattle.plant.specs.Faults.{told_of};

// The point asked is not fitted. The layer is that of the plant's make.
#[derive(Clone, Copy, Debug, PartialEq)]
pub struct PlantFault {
    pub point: u16,
    pub layer: u16,
}

// The plant's own fault, and the place of the item that names the point.
#[derive(Clone, Copy, Debug, PartialEq)]
pub struct Unfitted {
    pub place: usize,
    pub fault: PlantFault,
}

impl Unfitted {
    // The question that got a no: a number, since the questions of a run have no words.
    pub fn question(self) -> u16
        ensures { result ≡ (told_of self).question }
    {
        14
    }
}
