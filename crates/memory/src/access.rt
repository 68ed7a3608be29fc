// Memory read and changed, by operand, group or cell.
ghost use Rattle.std.specs.Prelude.{◌≡◌};
ghost use Rattle.memory.specs.Keeps.{StaysSound, LawsHold};
ghost use Rattle.memory.specs.Laws.{Stores, StoresCell, TellsOutputs, TellsWord};
ghost use Rattle.memory.specs.Readings.{value_of, cell_of, outputs_of, output_word_of};
ghost use Rattle.memory.specs.Sound.{Sound};
ghost use Rattle.memory.specs.Writings.{new_memory, stored, cell_stored};

use crate::memory::Memory;
use operand::operand::Operand;
use store::store::Store;

impl Memory {
    // All 0, with step 0 set in each chain.
    #[tactic(auto, unfolding(crate::specs::Writings::new_memory))]
    pub fn new() -> Memory
        ensures { result.store ≡ new_memory }
    {
        Memory {
            store: Store::new(),
        }
    }

    // Every memory is sound, whatever calls led to it; so are the definitions of all changes.
    pub fn soundness(&self)
        ensures sound { Sound self.now.store }
        ensures stays { StaysSound }
        ensures laws { LawsHold }
    {}

    // The value of an operand; 0 where memory has no such place.
    #[tactic(auto, unfolding(crate::specs::Readings::value_of))]
    pub fn read(&self, operand: Operand) -> i32
        ensures { result ≡ value_of self.now.store operand }
    {
        self.store.read(operand.kind, operand.place())
    }

    // Stores a value in an operand of a kind that lists write: A, M, S, AW, MW or MD.
    pub fn store(&mut self, operand: Operand, value: i32)
        ensures value { self.new.store ≡ stored self.old.store operand value }
        ensures law { Stores self.old.store self.new.store operand value }
    {
        self.put(operand, value);
    }

    #[tactic(auto, unfolding(crate::specs::Readings::cell_of))]
    pub fn cell(&self, cell: u16) -> i32
        ensures { result ≡ cell_of self.now.store cell }
    {
        self.store.cell(cell)
    }

    pub fn store_cell(&mut self, cell: u16, value: i32)
        ensures value { self.new.store ≡ cell_stored self.old.store cell value }
        ensures law { StoresCell self.old.store self.new.store cell value }
    {
        self.put_cell(cell, value);
    }

    // The sixteen outputs of a group as a word, channel 0 the lowest bit.
    #[tactic(auto, using(crate::proofs::Told::outputs_told), unfolding(crate::specs::Readings::outputs_of))]
    pub fn outputs(&self, group: u8) -> u16
        ensures value { result ≡ outputs_of self.now.store group }
        ensures law { TellsOutputs self.now.store group result }
    {
        self.store.tell_group(group)
    }

    // The sixteen bits of the output word at a place.
    #[tactic(auto, using(crate::proofs::Wrapped::word_told_of), unfolding(crate::specs::Readings::output_word_of))]
    pub fn output_word(&self, place: u8) -> u16
        ensures value { result ≡ output_word_of self.now.store place }
        ensures law { TellsWord self.now.store place result }
    {
        self.store.tell_word(place)
    }
}
