// Question 4: the first constant at fault.
ghost use Rattle.std.specs.Prelude.{◌≡◌, ℕ, ◌*◌, length, None as None-of};
ghost use Rattle.constants.specs.Decoded.{constants_of};
ghost use Rattle.constants.specs.Lawful.{Judged, allowed, constant_fault};

use crate::decode::Constants;
use crate::rules::may_follow;
use image::constant::Constant;
use operand::edition::Edition;
use operand::operand::Operand;

// The operand of a constant; none where it is no constant or may not stand behind the last one.
fn allowed(last: Option<Operand>, constant: Option<Constant>) -> Option<Operand>
    ensures { result ≡ allowed last constant }
{
    let operand = constant?.operand;
    may_follow(last, operand).then_some(operand)
}

// A pass of its own beside that of the rules over items: it has no early end, and a constant is neither an item nor bound by their laws on marks.
#[tactic(auto, using(crate::proofs::Passing::passing))]
fn find_fault(constants: Constants) -> Option<usize>
    ensures { result ≡ constant_fault None-of (constants_of constants.entry.edition constants.entry.words.now) 0 }
{
    let mut last = None;
    for (place, constant) in constants.enumerate() {
        let Some(operand) = allowed(last, constant) else {
            return Some(place);
        };
        last = Some(operand);
    }
    None
}

// The same of words on their own: that each has 16 bits is known of a slice that is passed, and of one in a field it is not.
fn judge_words(edition: Edition, words: &[u16]) -> Option<usize>
    ensures first { result ≡ constant_fault None-of (constants_of edition words.now) 0 }
    ensures judged { (n : ℕ) → length words.now ≡ 3 * n → Judged edition words.now result }
{
    find_fault(Constants { edition, words })
}

// The place of the first constant that is none, or that may not stand behind the one before.
pub fn constant_fault(constants: Constants) -> Option<usize>
    ensures first { result ≡ constant_fault None-of (constants_of constants.entry.edition constants.entry.words.now) 0 }
    ensures judged { (n : ℕ) → length constants.entry.words.now ≡ 3 * n → Judged constants.entry.edition constants.entry.words.now result }
{
    judge_words(constants.edition, constants.words)
}
