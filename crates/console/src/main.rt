// Reads a list's text from standard input and prints one line: what came of it.
// Ends with status 1 where the list is refused, or where reading, memory or printing fails.
#![tactic(auto)]

use report::report_text;
use std::io::Read;
use std::process::ExitCode;

fn main(rt: HostRuntime) -> anyhow::Result<ExitCode> {
    let mut text = Vec::new(rt.alloc());
    rt.stdin().read_to_end(&mut text)?;
    let report = report_text(rt.alloc(), &text)?;
    rt.println(report.line.as_str())?;
    Ok(report.exit_code())
}
