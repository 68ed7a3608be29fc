// The plant that a controller takes inputs from and puts outputs to.
ghost use Rattle.std.specs.Prelude.{◌≡◌, ℕ, List};
ghost use Rattle.std.specs.Borrow.{GName};
ghost use Rattle.plant.specs.Points.{Meaning, Inside, Deed, put_at, fits, taken, noted_take, noted_put};

use crate::fault::PlantFault;

// Only its meaning counts: which points are fitted, and their input and output words.
pub trait Plant {
    ghost meaning: { Self → Meaning };

    ghost inside: { (s : Self) → Inside (meaning s) };

    // The number that its faults carry, the same for all plants of a make. No enum: makes are added by others.
    ghost layer: { ℕ };

    // What the make keeps of takes and puts, and what it keeps after one more.
    ghost Kept: { Type 0 };

    ghost kept: { Self → Kept };

    ghost noted: { Kept → Deed → Kept };

    // What no call changes: the references that the plant holds, and whatever else of it is neither meaning nor kept.
    ghost lenders: { Self → List GName };

    ghost Rest: { Type 0 };

    ghost rest: { Self → Rest };

    fn fitted(&self, point: u16) -> Result<(), PlantFault>
        ensures { result ≡ fits (meaning self.now point) layer point };

    // The point's input word.
    fn take(&mut self, point: u16) -> Result<u16, PlantFault>
        ensures answer { result ≡ taken (meaning self.old point) layer point }
        ensures same { meaning self.new ≡ meaning self.old }
        ensures kept { kept self.new ≡ noted_take noted (kept self.old) point (meaning self.old point) }
        ensures lent { lenders self.new ≡ lenders self.old }
        ensures rest { rest self.new ≡ rest self.old };

    // Makes the word the point's output word.
    fn put(&mut self, point: u16, word: u16) -> Result<(), PlantFault>
        ensures answer { result ≡ fits (meaning self.old point) layer point }
        ensures after { meaning self.new ≡ put_at (meaning self.old) point word }
        ensures kept { kept self.new ≡ noted_put noted (kept self.old) point word (meaning self.old point) }
        ensures lent { lenders self.new ≡ lenders self.old }
        ensures rest { rest self.new ≡ rest self.old };
}
