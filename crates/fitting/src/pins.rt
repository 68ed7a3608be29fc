// Question 10: each pin fits what its block kind has there.
ghost use Rattle.fitting.specs.Pins.{pins, operand_fits, direct_fits, pin_of, next_pin};
ghost use Rattle.std.specs.Prelude.{◌≡◌};
ghost use Rattle.std.proofs.Common.{rules};

use crate::targets::is_step;
use catalogue::{Block, Pin};
use item::item::Item;
use operand::operand::Operand;
use rule::rule::Rule;

// Which pin is due. Not an Option: a rule is told by the type of its state, so a pair in an Option would need a struct around it.
#[derive(Clone, Copy, Debug, PartialEq, Eq)]
pub enum Pins {
    Idle,
    At(Block, usize),
}

fn fits(pin: Pin, operand: Operand) -> bool
    ensures { result ≡ operand_fits pin operand }
{
    match pin {
        Pin::Input(size) => size == operand.kind.size(),
        Pin::Output(size) => size == operand.kind.size()
            && operand.is_writable()
            && !is_step(operand.kind),
        Pin::Mark => false,
    }
}

// A direct value is only ever a mark, 0 to 999.
fn direct_fits(pin: Pin, word: u16) -> bool
    ensures { result ≡ direct_fits pin word }
{
    pin == Pin::Mark && word < 1000
}

// The pin with a number, if the kind has so many.
fn pin_at(block: Block, number: usize) -> Option<Pin>
    ensures { result ≡ pin_of block number }
{
    block.pins().get(number).copied()
}

fn behind(block: Block, number: usize) -> Pins
    ensures { result ≡ next_pin block number }
{
    let pins = block.pins().len();
    if number < pins && number + 1 < pins {
        Pins::At(block, number + 1)
    } else {
        Pins::Idle
    }
}

impl Rule for Pins {
    ghost automaton = { pins };

    ghost anew = { Prim.search rules };

    ghost opened = { Prim.search rules };

    fn start() -> Self {
        Pins::Idle
    }

    fn step(self, item: Item) -> Option<Self> {
        match (self, item) {
            (_, Item::Kind(block)) => Some(Pins::At(block, 0)),
            (Pins::At(block, number), Item::Pin(operand)) => {
                let pin = pin_at(block, number)?;
                fits(pin, operand).then_some(behind(block, number))
            }
            (Pins::At(block, number), Item::Direct(word)) => {
                let pin = pin_at(block, number)?;
                direct_fits(pin, word).then_some(behind(block, number))
            }
            (Pins::Idle, Item::Pin(_) | Item::Direct(_)) => None,
            (_, _) => Some(Pins::Idle),
        }
    }

    fn ends(self) -> bool {
        true
    }
}
