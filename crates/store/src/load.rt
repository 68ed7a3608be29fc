// What comes in and goes out by groups and words, constants, and clearing.
ghost use Rattle.std.specs.Prelude.{◌≡◌};
ghost use Rattle.store.specs.Values.{group_told, word_told};
ghost use Rattle.store.specs.Changes.{constant_at, group_loaded, word_loaded, cleared_at};

use crate::chain::Chain;
use crate::place::{at, fill, gather_word, put, spread_word};
use crate::store::Store;
use crate::word::limited_word;
use number::limit::{Width, limit};
use operand::kind::Kind;

impl Store {
    pub fn load_constant(&mut self, kind: Kind, place: u16, value: i32)
        ensures { self.new ≡ constant_at self.old kind place value }
    {
        let p = usize::from(place);
        match kind {
            Kind::ConstantWord => put(&mut self.constant_words, p, limited_word(value)),
            Kind::ConstantDouble => {
                put(
                    &mut self.constant_doubles,
                    p,
                    limit(Width::Double, i64::from(value)),
                )
            }
            _ => {}
        }
    }

    // Loads the sixteen inputs of a group, channel 0 from the lowest bit.
    pub fn load_group(&mut self, group: u8, word: u16)
        ensures { self.new ≡ group_loaded self.old group word }
    {
        spread_word(&mut self.inputs, 16 * u16::from(group), word);
    }

    // Loads an input word as it came.
    pub fn load_word(&mut self, place: u8, word: u16)
        ensures { self.new ≡ word_loaded self.old place word }
    {
        put(&mut self.input_words, usize::from(place), word);
    }

    // The sixteen outputs of a group, channel 0 the lowest bit.
    pub fn tell_group(&self, group: u8) -> u16
        ensures { result ≡ group_told self.now group }
    {
        gather_word(&self.outputs, 16 * u16::from(group))
    }

    // The sixteen bits of an output word.
    pub fn tell_word(&self, place: u8) -> u16
        ensures { result ≡ word_told self.now place }
    {
        at(&self.output_words, usize::from(place), 0).cast_unsigned()
    }

    // Clears the groups of a kind from `first` to `last`. An inclusive range would also tell whether it was
    // used up.
    pub fn clear(&mut self, kind: Kind, first: u8, last: u8)
        ensures { self.new ≡ cleared_at self.old kind first last }
    {
        let groups = (u16::from(last) + 1).saturating_sub(u16::from(first));
        let p = 16 * u16::from(first);
        let n = 16 * groups;
        match kind {
            Kind::Input => fill(&mut self.inputs, p, n, false),
            Kind::Output => fill(&mut self.outputs, p, n, false),
            Kind::Marker => fill(&mut self.markers, p, n, false),
            Kind::Step => fill(&mut self.chains, u16::from(first), groups, Chain { set: 0 }),
            Kind::Constant => {}
            Kind::InputWord => fill(&mut self.input_words, p, n, 0),
            Kind::OutputWord => fill(&mut self.output_words, p, n, 0),
            Kind::MarkerWord => fill(&mut self.marker_words, p, n, 0),
            Kind::ConstantWord => fill(&mut self.constant_words, p, n, 0),
            Kind::MarkerDouble => fill(&mut self.marker_doubles, p, n, 0),
            Kind::ConstantDouble => fill(&mut self.constant_doubles, p, n, 0),
        }
    }
}
