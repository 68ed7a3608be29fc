// A terminal strip over lent words: the input of point p at word 2p, its output at 2p + 1.
#![tactic(auto)]

ghost use Rattle.std.specs.Prelude.{◌≡◌, ℕ, ◌*◌, [], ◌∷◌, MatchResult};
ghost use Rattle.strip.specs.Strips.{on_strip, strip_inside, besides, Has};

use plant::absent::Absent;
use plant::fault::PlantFault;
use plant::plant::Plant;

#[derive(Drop)]
pub struct Strip<'a> {
    pub words: &'a mut [u16],
}

pub const LAYER: u16 = 1;

// The strip has no terminal for the point.
pub type StripFault = Absent<LAYER>;

impl<'a> Strip<'a> {
    pub fn new(words: &'a mut [u16]) -> Strip<'a>
        ensures words { result.words.now ≡ words.old }
        ensures lender { result.words.ghost_name ≡ words.entry.ghost_name }
    {
        Strip { words }
    }
}

impl Strip<'_> {
    // The place of the point's input word.
    fn terminal(&self, point: u16) -> Result<usize, StripFault>
        ensures { MatchResult result (λ at. (at ≡ 2 * point) × Has self.now.words.now point) (λ e. (e.point ≡ point) × (Has self.now.words.now point → ⊥)) }
    {
        let at = 2 * usize::from(point);
        if point < 192 && at + 1 < self.words.len() {
            Ok(at)
        } else {
            Err(StripFault { point })
        }
    }
}

impl<'a> Plant for Strip<'a> {
    ghost meaning = { λ s. on_strip s.words.now };

    ghost inside = { λ s. strip_inside s.words.now };

    ghost layer = { 1 };

    ghost Kept = { Unit {0} };

    ghost kept = { λ _. tt };

    ghost noted = { λ _ _. tt };

    ghost lenders = { λ s. s.words.ghost_name ∷ [] };

    ghost Rest = { ℕ → ℕ };

    ghost rest = { λ s. besides s.words.now };

    fn fitted(&self, point: u16) -> Result<(), PlantFault> {
        self.terminal(point)?;
        Ok(())
    }

    fn take(&mut self, point: u16) -> Result<u16, PlantFault> {
        let at = self.terminal(point)?;
        Ok(self.words[at])
    }

    fn put(&mut self, point: u16, word: u16) -> Result<(), PlantFault> {
        let at = self.terminal(point)?;
        self.words[at + 1] = word;
        Ok(())
    }
}
