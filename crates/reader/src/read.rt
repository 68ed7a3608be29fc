// All tokens of a text, one after the other.
ghost use Rattle.std.specs.Prelude.{◌≡◌, map, MatchResult, OnOk};
ghost use Rattle.reader.specs.Reading.{items_after, constants_after, read_on, unread, Reads};
ghost use Rattle.follow.specs.Steps.{may_end};
ghost use Rattle.reader.specs.declared.read.ReadRefusal.TheVariants.{Misplaced, NoMemory};
ghost use Rattle.token.specs.Reads.{seen_of};

use follow::number::Misfit;
use follow::state::{Asks, Put, State};
use follow::step::next;
use image::constant::Constant;
use item::item::Item;
use operand::edition::Edition;
use std::alloc::{AllocFailed, Global};
use token::token::Placed;

// The items and constants of a list.
#[derive(Drop)]
pub struct Program {
    pub items: Vec<Item>,
    pub constants: Vec<Constant>,
}

#[derive(Clone, Copy, Debug, PartialEq, Eq)]
pub enum ReadRefusal {
    // a token that does not fit the one before, or the text's end where one is missing
    Misplaced(usize),
    NoMemory,
}

impl From<Misfit> for ReadRefusal {
    ghost from_gives = { λ misfit r. r ≡ Misplaced misfit.place };

    fn from(misfit: Misfit) -> ReadRefusal {
        ReadRefusal::Misplaced(misfit.place)
    }
}

impl<T: Drop> From<AllocFailed<T>> for ReadRefusal {
    ghost from_gives = { λ _ r. r ≡ NoMemory };

    fn from(_refused: AllocFailed<T>) -> ReadRefusal {
        ReadRefusal::NoMemory
    }
}

// Whether the text may end here.
fn may_stop(asks: Asks) -> bool
    ensures { result ≡ may_end asks }
{
    matches!(asks, Asks::Entry | Asks::CallNumber | Asks::Constant)
}

impl Program {
    // Adds what a token adds.
    fn put(&mut self, put: Put) -> Result<(), ReadRefusal>
        ensures items { MatchResult result (λ _. self.new.items.items ≡ items_after put self.old.items.items) (λ e. e ≡ NoMemory) }
        ensures constants { OnOk result (self.new.constants.items ≡ constants_after put self.old.constants.items) }
    {
        match put {
            Put::Nothing => {}
            Put::Item(item) => self.items.push(item)?,
            Put::CallNumber(number) => {
                let _ = self.items.pop();
                self.items.push(Item::Call(Some(number)))?;
            }
            Put::Constant(constant) => self.constants.push(constant)?,
        }
        Ok(())
    }
}

// Reads the tokens of a text that ends at the byte place `end`.
pub fn read(
    heap: Global,
    edition: Edition,
    tokens: &[Placed],
    end: usize,
) -> Result<Program, ReadRefusal>
    ensures { Reads (read_on edition end (map seen_of tokens.now) unread) result }
{
    let mut program = Program {
        items: Vec::new(heap),
        constants: Vec::new(heap),
    };
    let mut state = State {
        asks: Asks::Entry,
        pins: 0,
        last: None,
    };
    for placed in tokens {
        let step = next(edition, state, *placed)?;
        program.put(step.put)?;
        state = step.state;
    }
    if may_stop(state.asks) {
        Ok(program)
    } else {
        Err(ReadRefusal::Misplaced(end))
    }
}
