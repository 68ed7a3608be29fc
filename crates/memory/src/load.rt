// Memory loaded and cleared: constants, inputs, groups of operands, history cells.
ghost use Rattle.std.specs.Prelude.{◌≡◌};
ghost use Rattle.memory.specs.Laws.{LoadsConstant, LoadsInputs, LoadsInputWord, Clears, ClearsCells};
ghost use Rattle.memory.specs.Writings.{constant_loaded, inputs_loaded, input_word_loaded, cleared, cells_cleared};

use crate::memory::Memory;
use operand::kind::Kind;
use operand::operand::Operand;

impl Memory {
    // Loads a constant, KW or KD.
    pub fn load_constant(&mut self, operand: Operand, value: i32)
        ensures value { self.new.store ≡ constant_loaded self.old.store operand value }
        ensures law { LoadsConstant self.old.store self.new.store operand value }
    {
        self.put_constant(operand, value);
    }

    // Loads the sixteen inputs of a group from a word, channel 0 from the lowest bit.
    pub fn load_inputs(&mut self, group: u8, word: u16)
        ensures value { self.new.store ≡ inputs_loaded self.old.store group word }
        ensures law { LoadsInputs self.old.store self.new.store group word }
    {
        self.put_inputs(group, word);
    }

    // Loads the input word at a place as it came: any 16 bits.
    pub fn load_input_word(&mut self, place: u8, word: u16)
        ensures value { self.new.store ≡ input_word_loaded self.old.store place word }
        ensures law { LoadsInputWord self.old.store self.new.store place word }
    {
        self.put_input_word(place, word);
    }

    // Clears the groups of a kind from `first` to `last`: all 0, a chain at step 0. Two numbers, since an inclusive range would also
    // tell whether it was used up.
    pub fn clear(&mut self, kind: Kind, first: u8, last: u8)
        ensures value { self.new.store ≡ cleared self.old.store kind first last }
        ensures law { Clears self.old.store self.new.store kind first last }
    {
        self.empty_groups(kind, first, last);
    }

    // Clears all history cells.
    pub fn clear_cells(&mut self)
        ensures value { self.new.store ≡ cells_cleared self.old.store }
        ensures law { ClearsCells self.old.store self.new.store }
    {
        self.empty_cells();
    }
}
