// Reads texts, each with the line that is to be printed of it, and tells how many of them come out so.
//
// A case is written `LINE |TEXT|`, or `LINE |FRONT|PART|TIMES|BACK|` where PART stands many times.
#![tactic(auto)]

use cases::buffer::leaves_buffer;
use cases::lines::try_lines;
use cases::text::{cut, read_text};
use report::report_text;
use std::alloc::Global;

// What came in place of what was due, if anything did.
fn try_case(heap: Global, case: &str) -> anyhow::Result<Option<String>> {
    let (line, rest) = cut(case)?;
    let line = line.trim_end();
    let text = read_text(heap, rest)?;
    let report = report_text(heap, &text)?;
    let is_due = report.line.as_str() == line
        && report.is_accepted() == line.starts_with("translated")
        && leaves_buffer(heap, &text);
    Ok((!is_due).then_some(report.line))
}

fn main(rt: HostRuntime) -> anyhow::Result<()> {
    try_lines(&rt, "texts", try_case)
}
