// Question 8: what fits a sentence by its type.
ghost use Rattle.fitting.specs.Types.{types, turned_types, operand_types, operator_types, assign_types};
ghost use Rattle.operand.specs.Kinds.{size_of};
ghost use Rattle.std.specs.Prelude.{◌≡◌};
ghost use Rattle.std.proofs.Common.{rules};

use item::item::Item;
use item::mnemonic::{Form, Operator, Turn};
use operand::kind::Size;
use operand::operand::Operand;
use rule::rule::Rule;

// What is known of the sentence's type.
#[derive(Clone, Copy, Debug, PartialEq, Eq)]
pub enum Types {
    // Outside a sentence.
    Idle,
    // Before the first operand: whether bits, whether words are asked for.
    Pending(bool, bool),
    // All is bits.
    Bits,
    // All is words.
    Words,
    // Words compared: the result is a bit.
    Compared,
}

impl Types {
    fn turned(self, turn: Turn) -> Option<Self>
        ensures { result ≡ turned_types self turn }
    {
        match (self, turn) {
            (_, Turn::Plain) => Some(self),
            (Types::Pending(_, words), Turn::Not) => Some(Types::Pending(true, words)),
            (Types::Pending(bits, _), Turn::Minus) => Some(Types::Pending(bits, true)),
            (Types::Bits, Turn::Not) | (Types::Words | Types::Compared, Turn::Minus) => Some(self),
            (_, _) => None,
        }
    }

    fn taken(self, operand: Operand) -> Option<Self>
        ensures { result ≡ operand_types self (size_of operand.kind) }
    {
        match (self, operand.kind.size()) {
            (Types::Pending(_, false) | Types::Bits, Size::Bit) => Some(Types::Bits),
            (Types::Pending(false, _) | Types::Words, Size::Word) => Some(Types::Words),
            (Types::Compared, Size::Word) => Some(Types::Compared),
            (_, _) => None,
        }
    }

    fn joined(self, operator: Operator) -> Option<Self>
        ensures { result ≡ operator_types self operator }
    {
        match (self, operator) {
            (Types::Bits, Operator::And | Operator::AndNot | Operator::Or | Operator::OrNot) =>
                Some(self),
            (
                Types::Words | Types::Compared,
                Operator::Add
                | Operator::Subtract
                | Operator::Multiply
                | Operator::MultiplyMinus
                | Operator::Divide
                | Operator::DivideMinus,
            ) => Some(self),
            (_, _) => None,
        }
    }

    fn assigned(self, form: Form, operand: Operand) -> Option<Self>
        ensures { result ≡ assign_types self form (size_of operand.kind) }
    {
        match (self, form, operand.kind.size()) {
            (Types::Bits | Types::Compared, Form::Minus, _) => None,
            (Types::Bits | Types::Compared, _, Size::Bit) => Some(self),
            (Types::Words, Form::Plain | Form::Minus, Size::Word) => Some(self),
            (_, _, _) => None,
        }
    }
}

impl Rule for Types {
    ghost automaton = { types };

    ghost anew = { Prim.search rules };

    ghost opened = { Prim.search rules };

    fn start() -> Self {
        Types::Idle
    }

    fn step(self, item: Item) -> Option<Self> {
        match item {
            Item::Nop | Item::Close => Some(self),
            Item::Start(turn) => Types::Pending(false, false).turned(turn),
            Item::Open(turn) => self.turned(turn),
            Item::Operand(operand) => self.taken(operand),
            Item::Operator(operator) => self.joined(operator),
            Item::Compare(_) => (self == Types::Words).then_some(Types::Compared),
            Item::Assign(form, operand) => self.assigned(form, operand),
            Item::EndIf => matches!(self, Types::Bits | Types::Compared).then_some(Types::Idle),
            _ => Some(Types::Idle),
        }
    }

    fn ends(self) -> bool {
        true
    }
}
