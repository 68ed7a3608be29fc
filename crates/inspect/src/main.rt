// Reads a list's text from standard input and prints one line: what came of it.
// With `--explain` two lines follow on a refusal: the question in words, and what stands at the place.
// Ends with status 1 where the list is refused, or where reading, memory or printing fails.
#![tactic(auto)]

use explain::shown::explain;
use operand::edition::Edition;
use outcome::report_text;
use report::MOST_WORDS;
use std::env;
use std::io::{Read, Write};
use std::process::ExitCode;
use told::Told;
use translate::translate::translate;

// Room for the longest explanation: `explain` writes into a lent buffer and tells the length.
const EXPLAINED: usize = 256;

fn asked_to_explain(rt: &HostRuntime) -> anyhow::Result<bool> {
    Ok(
        env::args(rt)?
            .skip(1)
            .any(|argument| argument.as_str() == "--explain"),
    )
}

fn print_explained(rt: &HostRuntime, text: &[u8], told: Told) -> anyhow::Result<()> {
    let mut words = [0; MOST_WORDS];
    let items = translate(rt.alloc(), Edition::Series90, text, &mut words)
        .map_or(0, |written| 2 * usize::from(written.items))
        .min(MOST_WORDS);
    let mut lines = [0; EXPLAINED];
    let length = explain(told, text, &words[..items], &mut lines);
    let length = length.min(EXPLAINED);
    rt.stdout().write_all(&lines[..length])?;
    Ok(())
}

fn main(rt: HostRuntime) -> anyhow::Result<ExitCode> {
    let mut text = Vec::new(rt.alloc());
    rt.stdin().read_to_end(&mut text)?;
    let report = report_text(rt.alloc(), &text)?;
    rt.println(report.line.as_str())?;
    if let Some(told) = report.told {
        if asked_to_explain(&rt)? {
            print_explained(&rt, &text, told)?;
        }
    }
    Ok(report.exit_code())
}
