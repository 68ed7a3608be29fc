// A test bench as a plant of another make: terminals in a vector, and a log of its first eight puts.
ghost use Rattle.std.specs.Prelude.{ℕ, List, []};
ghost use Rattle.plant_trials.specs.Benches.{bench_inside, logged, on_bench};

use arrayvec::ArrayVec;
use plant::fault::PlantFault;
use plant::plant::Plant;

#[derive(Clone, Copy, Debug, PartialEq)]
pub struct Terminal {
    pub input: u16,
    pub output: u16,
}

#[derive(Drop)]
pub struct Bench {
    pub terminals: Vec<Terminal>,
    pub log: ArrayVec<u16, 8>,
}

pub const LAYER: u16 = 7;

impl Plant for Bench {
    ghost meaning = { λ s. on_bench s.terminals.items };

    ghost inside = { λ s. bench_inside s.terminals.items };

    ghost layer = { 7 };

    ghost Kept = { List ℕ };

    ghost kept = { λ s. s.log.items };

    ghost noted = { logged };

    ghost lenders = { λ _. [] };

    ghost Rest = { Unit {0} };

    ghost rest = { λ _. tt };

    fn fitted(&self, point: u16) -> Result<(), PlantFault> {
        if point < 192 && usize::from(point) < self.terminals.len() {
            Ok(())
        } else {
            Err(PlantFault {
                point,
                layer: LAYER,
            })
        }
    }

    fn take(&mut self, point: u16) -> Result<u16, PlantFault> {
        self.fitted(point)?;
        Ok(self.terminals[usize::from(point)].input)
    }

    fn put(&mut self, point: u16, word: u16) -> Result<(), PlantFault> {
        self.fitted(point)?;
        self.terminals[usize::from(point)].output = word;
        // a full log keeps what it has
        let _ = self.log.try_push(point);
        Ok(())
    }
}
