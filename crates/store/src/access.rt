// Operands read and stored, and history cells.
ghost use Rattle.std.specs.Prelude.{◌≡◌, ◌<◌, slice_index_or};
ghost use Rattle.store.specs.Chains.{is_set, no_chain};
ghost use Rattle.store.specs.Values.{value_at, cell_at};
ghost use Rattle.store.specs.Changes.{new_store, step_set, stored_at, cell_put, cells_cleared};

use crate::chain::Chain;
use crate::place::{at, put};
use crate::store::Store;
use crate::word::limited_word;
use number::limit::{Width, correct, limit};
use operand::kind::Kind;

// Kind and place go side by side: each call matches on the kind, and an `Operand` names fewer places.
impl Store {
    pub fn new() -> Store
        ensures { result ≡ new_store }
    {
        Store {
            inputs: [false; 1024],
            outputs: [false; 1024],
            markers: [false; 4096],
            chains: [Chain { set: 0 }; 128],
            input_words: [0; 128],
            output_words: [0; 128],
            marker_words: [0; 4096],
            constant_words: [0; 640],
            marker_doubles: [0; 512],
            constant_doubles: [0; 128],
            history: [0; 1024],
        }
    }

    // The value of an operand; 0 where memory has none.
    pub fn read(&self, kind: Kind, place: u16) -> i32
        ensures { result ≡ value_at self.now kind place }
    {
        let p = usize::from(place);
        match kind {
            Kind::Input => i32::from(at(&self.inputs, p, false)),
            Kind::Output => i32::from(at(&self.outputs, p, false)),
            Kind::Marker => i32::from(at(&self.markers, p, false)),
            Kind::Step => i32::from(self.is_step_set(p / 16, (place % 16) as u8)),
            Kind::Constant => i32::from(place == 1),
            Kind::InputWord => {
                let word = at(&self.input_words, p, 0).cast_signed();
                correct(Width::Word, i32::from(word))
            }
            Kind::OutputWord => correct(Width::Word, i32::from(at(&self.output_words, p, 0))),
            Kind::MarkerWord => correct(Width::Word, i32::from(at(&self.marker_words, p, 0))),
            Kind::ConstantWord => correct(Width::Word, i32::from(at(&self.constant_words, p, 0))),
            Kind::MarkerDouble => correct(Width::Double, at(&self.marker_doubles, p, 0)),
            Kind::ConstantDouble => correct(Width::Double, at(&self.constant_doubles, p, 0)),
        }
    }

    // Whether a step is set; none is in a chain past the last.
    fn is_step_set(&self, group: usize, step: u8) -> bool
        requires { step < 16 }
        ensures { result ≡ is_set (slice_index_or self.now.chains group no_chain) step }
    {
        self.chains
            .get(group)
            .is_some_and(|chain| chain.is_set(step))
    }

    // Sets a step: the chain then has no other one set.
    fn set_step(&mut self, group: usize, step: u8)
        ensures { self.new ≡ step_set self.old group step }
    {
        if let Some(chain) = self.chains.get(group).copied() {
            self.chains[group] = chain.moved_to(step);
        }
    }

    // Stores a value in an operand that lists may write; a step is set by a value that is not 0 and left by 0.
    pub fn store(&mut self, kind: Kind, place: u16, value: i32)
        ensures { self.new ≡ stored_at self.old kind place value }
    {
        let p = usize::from(place);
        match kind {
            Kind::Output => put(&mut self.outputs, p, value != 0),
            Kind::Marker => put(&mut self.markers, p, value != 0),
            Kind::Step => {
                if value != 0 {
                    self.set_step(p / 16, (place % 16) as u8);
                }
            }
            Kind::OutputWord => put(&mut self.output_words, p, limited_word(value)),
            Kind::MarkerWord => put(&mut self.marker_words, p, limited_word(value)),
            Kind::MarkerDouble => {
                put(
                    &mut self.marker_doubles,
                    p,
                    limit(Width::Double, i64::from(value)),
                )
            }
            Kind::Input
            | Kind::Constant
            | Kind::InputWord
            | Kind::ConstantWord
            | Kind::ConstantDouble => {}
        }
    }

    pub fn cell(&self, cell: u16) -> i32
        ensures { result ≡ cell_at self.now cell }
    {
        at(&self.history, usize::from(cell), 0)
    }

    pub fn store_cell(&mut self, cell: u16, value: i32)
        ensures { self.new ≡ cell_put self.old cell value }
    {
        put(&mut self.history, usize::from(cell), value);
    }

    pub fn clear_cells(&mut self)
        ensures { self.new ≡ cells_cleared self.old }
    {
        self.history = [0; 1024];
    }
}
