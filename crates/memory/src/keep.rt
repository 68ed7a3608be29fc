// The changes of a memory's arrays, each keeping the facts of its type.
// The public calls add what they mean for operands and cells: a law has a proof of its own.
ghost use Rattle.std.specs.Prelude.{◌≡◌};
ghost use Rattle.operand.specs.Codes.{place_of};
ghost use Rattle.store.specs.Changes.{stored_at, constant_at, group_loaded, word_loaded, cell_put, cleared_at, cells_cleared};

use crate::memory::Memory;
use operand::kind::Kind;
use operand::operand::Operand;

impl Memory {
    pub(crate) fn put(&mut self, operand: Operand, value: i32)
        ensures { self.new.store ≡ stored_at self.old.store operand.kind (place_of operand) value }
    {
        self.store.store(operand.kind, operand.place(), value);
    }

    pub(crate) fn put_constant(&mut self, operand: Operand, value: i32)
        ensures { self.new.store ≡ constant_at self.old.store operand.kind (place_of operand) value }
    {
        self.store
            .load_constant(operand.kind, operand.place(), value);
    }

    pub(crate) fn put_inputs(&mut self, group: u8, word: u16)
        ensures { self.new.store ≡ group_loaded self.old.store group word }
    {
        self.store.load_group(group, word);
    }

    pub(crate) fn put_input_word(&mut self, place: u8, word: u16)
        ensures { self.new.store ≡ word_loaded self.old.store place word }
    {
        self.store.load_word(place, word);
    }

    pub(crate) fn put_cell(&mut self, cell: u16, value: i32)
        ensures { self.new.store ≡ cell_put self.old.store cell value }
    {
        self.store.store_cell(cell, value);
    }

    pub(crate) fn empty_groups(&mut self, kind: Kind, first: u8, last: u8)
        ensures { self.new.store ≡ cleared_at self.old.store kind first last }
    {
        self.store.clear(kind, first, last);
    }

    pub(crate) fn empty_cells(&mut self)
        ensures { self.new.store ≡ cells_cleared self.old.store }
    {
        self.store.clear_cells();
    }
}
