// The items of an instruction list, with number and argument.
ghost use Rattle.std.specs.Prelude.{◌≡◌, ◌≤◌};
ghost use Rattle.item.specs.Items.{number_of, argument_of, item_cells, nameless_number, IsNamelessNumbered};

use crate::mnemonic::{Comparison, Form, Mnemonic, Operator, Turn};
use catalogue::Block;
use operand::operand::Operand;

// The argument of a call without a number.
pub const NO_NUMBER: u16 = 1000;

// What a text writes without a mnemonic: an operand, a block's name or a pin.
#[derive(Clone, Copy, Debug, PartialEq, Eq)]
pub enum Nameless {
    Operand = 8,
    Kind = 41,
    Pin = 42,
}

// A number that no item without a mnemonic has.
#[derive(Clone, Copy, Debug, PartialEq, Eq)]
pub struct UnknownNameless(pub u16);

#[derive(Clone, Copy, Debug, PartialEq, Eq)]
pub enum Item {
    Nop,
    Start(Turn),
    Open(Turn),
    Close,
    Operand(Operand),
    Operator(Operator),
    Compare(Comparison),
    Assign(Form, Operand),
    EndIf,
    // a block call, with its number if it has one
    Call(Option<u16>),
    Kind(Block),
    Pin(Operand),
    // a pin's value, written directly
    Direct(u16),
    Mark(u16),
    End,
}

impl Nameless {
    pub fn number(self) -> u16
        ensures { result ≡ nameless_number self }
    {
        self as u16
    }
}

impl TryFrom<u16> for Nameless {
    type Error = UnknownNameless;

    ghost try_from_gives = { IsNamelessNumbered };

    fn try_from(number: u16) -> Result<Nameless, UnknownNameless> {
        match number {
            8 => Ok(Nameless::Operand),
            41 => Ok(Nameless::Kind),
            42 => Ok(Nameless::Pin),
            _ => Err(UnknownNameless(number)),
        }
    }
}

impl Item {
    // The number of the item's mnemonic; one that is written without a mnemonic has its own.
    pub fn number(self) -> u16
        ensures { result ≡ number_of self }
    {
        match self {
            Item::Nop => Mnemonic::Nop.number(),
            Item::Start(turn) => Mnemonic::Start(turn).number(),
            Item::Open(turn) => Mnemonic::Open(turn).number(),
            Item::Close => Mnemonic::Close.number(),
            Item::Operand(_) => Nameless::Operand.number(),
            Item::Operator(operator) => Mnemonic::Operator(operator).number(),
            Item::Compare(comparison) => Mnemonic::Compare(comparison).number(),
            Item::Assign(form, _) => Mnemonic::Assign(form).number(),
            Item::EndIf => Mnemonic::EndIf.number(),
            Item::Call(_) => Mnemonic::Call.number(),
            Item::Kind(_) => Nameless::Kind.number(),
            Item::Pin(_) => Nameless::Pin.number(),
            Item::Direct(_) => Mnemonic::Direct.number(),
            Item::Mark(_) => Mnemonic::Mark.number(),
            Item::End => Mnemonic::End.number(),
        }
    }

    pub fn argument(self) -> u16
        ensures { result ≡ argument_of self }
    {
        match self {
            Item::Operand(operand) | Item::Assign(_, operand) | Item::Pin(operand) =>
                operand.code(),
            Item::Call(number) => number.unwrap_or(NO_NUMBER),
            Item::Kind(block) => block.number(),
            Item::Direct(word) => word,
            Item::Mark(mark) => mark,
            _ => 0,
        }
    }

    // The history cells that the item asks for: those of the block kind that it names.
    pub fn cells(self) -> u16
        ensures value { result ≡ item_cells self }
        ensures bound { result ≤ 3 }
    {
        match self {
            Item::Kind(block) => block.cells(),
            _ => 0,
        }
    }
}
