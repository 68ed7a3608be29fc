// Which constants may stand behind a list, and in which order.
ghost use Rattle.std.specs.Prelude.{◌≡◌};
ghost use Rattle.constants.specs.Rules.{above, constant_fits, constant_kind};
ghost use Rattle.operand.specs.Codes.{code_of};

use operand::edition::{Range, in_ranges};
use operand::kind::Kind;
use operand::operand::Operand;

// KW 00,13 to 00,15.
static RESERVED: [Range; 1] = [Range {
    kind: Kind::ConstantWord,
    first: 13,
    last: 15,
}];

fn rises(last: Option<Operand>, operand: Operand) -> bool
    ensures { result ≡ above last (code_of operand) }
{
    last.is_none_or(|before| before.code() < operand.code())
}

// Whether a constant may stand behind the last one: codes rise strictly, and some places are reserved.
pub fn may_follow(last: Option<Operand>, operand: Operand) -> bool
    ensures { result ≡ constant_fits last operand }
{
    rises(last, operand) && !in_ranges(&RESERVED, operand.kind, operand.place())
}

// Whether the operands of a kind are constants of a list.
pub fn is_constant(kind: Kind) -> bool
    ensures { result ≡ constant_kind kind }
{
    matches!(kind, Kind::ConstantWord | Kind::ConstantDouble)
}
