// Question 9: assigned operands can be written, a step only under `=`.
ghost use Rattle.fitting.specs.Steps.{is_step};
ghost use Rattle.fitting.specs.Targets.{targets, takes};
ghost use Rattle.std.specs.Prelude.{◌≡◌};
ghost use Rattle.std.proofs.Common.{rules};

use item::item::Item;
use item::mnemonic::Form;
use operand::kind::Kind;
use operand::operand::Operand;
use rule::rule::Rule;

// Nothing need be kept from item to item. A type of its own beside Known, since a rule is told by its type.
#[derive(Clone, Copy, Debug, PartialEq, Eq)]
pub struct Targets;

pub fn is_step(kind: Kind) -> bool
    ensures { result ≡ is_step kind }
{
    kind == Kind::Step
}

fn may_assign(form: Form, operand: Operand) -> bool
    ensures { result ≡ takes form operand }
{
    match form {
        Form::Plain => operand.is_writable(),
        _ => operand.is_writable() && !is_step(operand.kind),
    }
}

impl Rule for Targets {
    ghost automaton = { targets };

    ghost anew = { Prim.search rules };

    ghost opened = { Prim.search rules };

    fn start() -> Self {
        Targets
    }

    fn step(self, item: Item) -> Option<Self> {
        match item {
            Item::Assign(form, operand) => may_assign(form, operand).then_some(self),
            _ => Some(self),
        }
    }

    fn ends(self) -> bool {
        true
    }
}
