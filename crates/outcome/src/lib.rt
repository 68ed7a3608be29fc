// The one line that the console prints of a list.
#![tactic(auto)]

ghost use Rattle.std.specs.Prelude.{IfOk, Some};
ghost use Rattle.checker.specs.Verdict.{verdict_of};
ghost use Rattle.outcome.specs.Lines.{passed_line, Reports, ReportsVerdict};

use checker::check::{Passed, check};
use operand::edition::Edition;
pub use report::{MOST_WORDS, Report};
use std::alloc::{AllocError, Global};
use std::fmt;
use translate::translate::translate;

// The counts of a list that passes. `Passed` is of a crate that prints nothing.
#[derive(Clone, Copy)]
struct Counts(Passed);

impl fmt::Display for Counts {
    ghost output = { λ c. Some (passed_line c.0.items c.0.cells) };

    fn fmt<W: fmt::Write>(&self, f: &mut fmt::Formatter<W>) -> fmt::Result {
        let Passed { items, cells } = self.0;
        write!(f, "passed {items} items {cells} cells")
    }
}

// What comes of an image.
pub fn report_image(heap: Global, words: &[u16]) -> Result<Report, AllocError>
    ensures { IfOk result (λ p. ReportsVerdict (verdict_of words.now) p) }
{
    match check(words) {
        Ok(passed) => Ok(Report {
            line: Counts(passed).to_string(heap)?,
            told: None,
        }),
        Err(refusal) => Report::refused(heap, refusal.told()),
    }
}

// What comes of a list's text.
#[tactic(auto, using(crate::proofs::Fronts::verdict_written))]
pub fn report_text(heap: Global, text: &[u8]) -> Result<Report, AllocError>
    ensures { IfOk result (λ p. Reports text.now p) }
{
    let mut words = [0; MOST_WORDS];
    match translate(heap, Edition::Series90, text, &mut words) {
        Ok(written) => report_image(heap, &words[..written.length]),
        Err(refusal) => Report::refused(heap, refusal.told().ok_or(AllocError)?),
    }
}
