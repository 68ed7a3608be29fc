// The one line that the console prints of a list.
#![tactic(auto)]

ghost use Rattle.std.specs.Prelude.{◌≡◌, IfOk, None, Some, if◌then◌else◌, string_bytes};
ghost use Rattle.report.specs.Lines.{is_accepted, translated_line, Reports};
ghost use Rattle.told.specs.Lines.{refused_line};

use image::write::Written;
use operand::edition::Edition;
use std::alloc::{AllocError, Global};
use std::fmt;
use std::process::ExitCode;
use told::Told;
use translate::translate::translate;

// The words of the longest image: 4,096 items, 768 constants and the trailer.
pub const MOST_WORDS: usize = 10_502;

#[derive(Drop)]
pub struct Report {
    pub line: String,
    // the question that got a no, with its place
    pub told: Option<Told>,
}

impl Report {
    // The report of a list that is refused.
    pub fn refused(heap: Global, told: Told) -> Result<Report, AllocError>
        ensures { IfOk result (λ p. (string_bytes p.line ≡ refused_line told) × (p.told ≡ Some told)) }
    {
        Ok(Report {
            line: told.to_string(heap)?,
            told: Some(told),
        })
    }

    pub fn is_accepted(&self) -> bool
        ensures { result ≡ is_accepted self.now }
    {
        self.told.is_none()
    }

    // With which status a program ends that printed the line.
    pub fn exit_code(&self) -> ExitCode
        ensures { result.status ≡ (if is_accepted self.now then 0 else 1) }
    {
        if self.is_accepted() {
            ExitCode::SUCCESS
        } else {
            ExitCode::FAILURE
        }
    }
}

// The counts of a list that was translated. `Written` is of a crate that prints nothing.
#[derive(Clone, Copy)]
struct Counts(Written);

impl fmt::Display for Counts {
    ghost output = { λ c. Some (translated_line c.0) };

    fn fmt<W: fmt::Write>(&self, f: &mut fmt::Formatter<W>) -> fmt::Result {
        let Written {
            items,
            constants,
            cells,
            ..
        } = self.0;
        write!(
            f,
            "translated {items} items {constants} constants {cells} cells"
        )
    }
}

// What comes of a list's text.
pub fn report_text(heap: Global, text: &[u8]) -> Result<Report, AllocError>
    ensures { IfOk result (λ p. Reports text.now p) }
{
    let mut words = [0; MOST_WORDS];
    match translate(heap, Edition::Series90, text, &mut words) {
        Ok(written) => Ok(Report {
            line: Counts(written).to_string(heap)?,
            told: None,
        }),
        Err(refusal) => Report::refused(heap, refusal.told().ok_or(AllocError)?),
    }
}
