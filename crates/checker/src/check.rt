// The check.
ghost use Rattle.std.specs.Prelude.{◌≡◌, MatchOption, Ok as Ok-of, Err as Err-of};
ghost use Rattle.checker.specs.Verdict.{Parts, answered, first_no, further_questions, known_questions, list_questions, no_of, seen, verdict_of};
ghost use Rattle.checker.specs.Passes.{Judges};

use crate::refusal::CheckRefusal;
use constants::pass::constant_fault;
use decode::items::Items;
use fitting::depth::Depth;
use fitting::known::Known;
use fitting::pins::Pins;
use fitting::targets::Targets;
use fitting::types::Types;
use grammar::question::list_fault;
use marks::cells::count_cells;
use marks::jump::jump_fault;
use rule::pass::find_fault;
use view::{Image, view_image};

// The most history cells that a memory has.
pub const MOST_CELLS: u16 = 1024;

// What an image that passes has.
#[derive(Clone, Copy, Debug, PartialEq, Eq)]
pub struct Passed {
    pub items: u16,
    pub cells: u16,
}

// A fault that a question finds, as the refusal that tells it.
fn refuse(refusal: Option<CheckRefusal>) -> Result<(), CheckRefusal>
    ensures { MatchOption refusal (result ≡ Ok-of tt) (λ q. result ≡ Err-of q) }
{
    refusal.map_or(Ok(()), Err)
}

// Questions 4 and 5: whether constants and items are known.
pub fn judge_known(image: Image) -> Result<(), CheckRefusal>
    ensures { no_of result ≡ first_no known_questions (seen image.entry) }
{
    refuse(constant_fault(image.constants()).map(CheckRefusal::NoConstant))?;
    refuse(find_fault::<Known>(image.items()).map(CheckRefusal::NoItem))
}

// Questions 6 to 12, in this order.
fn judge_list(items: Items, cells: u16) -> Result<(), CheckRefusal>
    ensures { (p : Parts) → p.edition ≡ items.entry.edition → p.items ≡ items.entry.words.now → p.cells ≡ cells → no_of result ≡ first_no further_questions p }
{
    refuse(list_fault(items).map(CheckRefusal::NoList))?;
    refuse(find_fault::<Depth>(items).map(CheckRefusal::TooDeep))?;
    refuse(find_fault::<Types>(items).map(CheckRefusal::NoType))?;
    refuse(find_fault::<Targets>(items).map(CheckRefusal::NoTarget))?;
    refuse(find_fault::<Pins>(items).map(CheckRefusal::NoPin))?;
    refuse(jump_fault(items).map(CheckRefusal::NoMark))?;
    if count_cells(items) == usize::from(cells) && cells <= MOST_CELLS {
        Ok(())
    } else {
        Err(CheckRefusal::NoCells)
    }
}

// Questions 4 to 12, in this order.
fn judge(image: Image) -> Result<(), CheckRefusal>
    ensures { no_of result ≡ first_no list_questions (seen image.entry) }
{
    judge_known(image)?;
    judge_list(image.items(), image.cells)
}

fn decide(words: &[u16]) -> Result<Passed, CheckRefusal>
    ensures { answered result ≡ verdict_of words.now }
{
    let image = view_image(words)?;
    judge(image)?;
    Ok(Passed {
        items: image.items().len() as u16,
        cells: image.cells,
    })
}

// Puts the twelve questions to an image, each to the whole of it: the numbers of its items and cells,
// or the first question that gets a no, with its first place at fault.
pub fn check(words: &[u16]) -> Result<Passed, CheckRefusal>
    ensures answer { answered result ≡ verdict_of words.now }
    ensures exact { Judges words.now result }
{
    decide(words)
}
