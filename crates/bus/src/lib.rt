// A CS31 bus over a lent list of module records. The first record of a point counts.
#![tactic(auto)]

ghost use Rattle.std.specs.Prelude.{◌≡◌, ◌<◌, List, [], ◌∷◌, length, MatchOption, MatchResult};
ghost use Rattle.bus.specs.Buses.{on_bus, bus_inside, besides, First, NoneBelow, Shown, Written, Driven};
ghost use Rattle.bus.specs.declared.Module.{Module as AnyModule};
ghost use Rattle.plant.specs.Points.{absent, put_at};

use plant::absent::Absent;
use plant::fault::PlantFault;
use plant::plant::Plant;

// A module: its point, its input word and its output word, each low byte first.
#[derive(Clone, Copy, Debug, PartialEq)]
pub struct Module {
    pub point: u16,
    pub input_low: u8,
    pub input_high: u8,
    pub output_low: u8,
    pub output_high: u8,
}

#[derive(Drop)]
pub struct Bus<'a> {
    pub modules: &'a mut [Module],
}

pub const LAYER: u16 = 2;

// No module of the bus serves the point.
pub type BusFault = Absent<LAYER>;

impl<'a> Bus<'a> {
    pub fn new(modules: &'a mut [Module]) -> Bus<'a>
        ensures modules { result.modules.now ≡ modules.old }
        ensures lender { result.modules.ghost_name ≡ modules.entry.ghost_name }
    {
        Bus { modules }
    }
}

impl Bus<'_> {
    // The place of the first record of a point that a bus can serve.
    fn first_of(&self, point: u16) -> Option<usize>
        ensures { MatchOption result (point < 192 → NoneBelow self.now.modules.now point (length self.now.modules.now)) (λ at. (point < 192) × First self.now.modules.now point at) }
    {
        if point >= 192 {
            return None;
        }
        self.modules.iter().position(|module| module.point == point)
    }

    fn place(&self, point: u16) -> Result<usize, BusFault>
        ensures { MatchResult result (λ at. Shown self.now.modules.now point at) (λ e. (e.point ≡ point) × (on_bus self.now.modules.now point ≡ absent)) }
    {
        self.first_of(point).ok_or(BusFault { point })
    }

    // Writes the word into the first record of the point.
    fn write(&mut self, point: u16, word: u16) -> Result<(), BusFault>
        ensures records { MatchResult result (λ _. Written self.old.modules.now point word self.new.modules.now) (λ e. (e.point ≡ point) × (point < 192 → NoneBelow self.old.modules.now point (length self.old.modules.now)) × (self.new.modules.now ≡ self.old.modules.now)) }
        ensures lent { self.new.modules.ghost_name ≡ self.old.modules.ghost_name }
    {
        let at = self.first_of(point).ok_or(BusFault { point })?;
        let module = &mut self.modules[at];
        [module.output_low, module.output_high] = word.to_le_bytes();
        Ok(())
    }

    // Makes the word the output of the point: no other record changes, nor anything else of that one.
    pub fn drive(&mut self, point: u16, word: u16) -> Result<(), BusFault>
        ensures records { MatchResult result (λ _. Driven self.old.modules.now point word self.new.modules.now) (λ e. (e.point ≡ point) × (on_bus self.old.modules.now point ≡ absent) × (self.new.modules.now ≡ self.old.modules.now)) }
        ensures after { on_bus self.new.modules.now ≡ put_at (on_bus self.old.modules.now) point word }
        ensures rest { besides self.new.modules.now ≡ besides self.old.modules.now }
        ensures lent { self.new.modules.ghost_name ≡ self.old.modules.ghost_name }
    {
        self.write(point, word)
    }
}

impl<'a> Plant for Bus<'a> {
    ghost meaning = { λ s. on_bus s.modules.now };

    ghost inside = { λ s. bus_inside s.modules.now };

    ghost layer = { 2 };

    ghost Kept = { Unit {0} };

    ghost kept = { λ _. tt };

    ghost noted = { λ _ _. tt };

    ghost lenders = { λ s. s.modules.ghost_name ∷ [] };

    ghost Rest = { List AnyModule };

    ghost rest = { λ s. besides s.modules.now };

    fn fitted(&self, point: u16) -> Result<(), PlantFault> {
        self.place(point)?;
        Ok(())
    }

    fn take(&mut self, point: u16) -> Result<u16, PlantFault> {
        let at = self.place(point)?;
        let module = &self.modules[at];
        Ok(u16::from_le_bytes([module.input_low, module.input_high]))
    }

    fn put(&mut self, point: u16, word: u16) -> Result<(), PlantFault> {
        self.drive(point, word)?;
        Ok(())
    }
}
