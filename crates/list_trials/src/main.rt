// Reads lists, as texts or images, each with the line that is due for it, and tells how many of them come out so.
//
// A text's case is written `LINE |TEXT|`, or `LINE |FRONT|PART|TIMES|BACK|` where PART stands many times.
// LINE is what the translator comes to; where it translates, ` / ` and what the check comes to follow.
// An image's case is written `LINE [WORDS]`, where `TIMESxWORD` stands for a word that stands many times.
#![tactic(auto)]

use cases::buffer::leaves_buffer;
use cases::lines::try_lines;
use cases::text::{cut, read_text};
use outcome::{report_image, report_text};
use report::Report;
use std::alloc::{AllocError, Global};

fn read_words(heap: Global, shown: &str) -> anyhow::Result<Vec<u16>> {
    let mut words = Vec::new(heap);
    for part in shown.split_whitespace() {
        let (times, word) = part.split_once('x').unwrap_or(("1", part));
        let times = times.parse::<usize>()?;
        let word = word.parse()?;
        for _ in 0..times {
            words.push(word)?;
        }
    }
    Ok(words)
}

// A report's line; where it does not go with what it says of the list, with a remark.
fn reported(heap: Global, report: Report) -> Result<String, AllocError> {
    let line = report.line.as_str();
    if line.starts_with("passed") == report.is_accepted() {
        Ok(report.line)
    } else {
        format!(in heap; "{line} and the contrary")
    }
}

// What the translator comes to, and what the check; one where they are the same.
fn text_line(heap: Global, text: &[u8]) -> Result<String, AllocError> {
    if !leaves_buffer(heap, text) {
        return String::from_str(heap, "a buffer was changed");
    }
    let translated = report::report_text(heap, text)?.line;
    let checked = reported(heap, report_text(heap, text)?)?;
    if translated.as_str() == checked.as_str() {
        Ok(translated)
    } else {
        format!(in heap; "{translated} / {checked}")
    }
}

// What came in place of what was due, if anything did.
fn try_case(heap: Global, case: &str) -> anyhow::Result<Option<String>> {
    let (due, line) = match case.split_once('[') {
        Some((due, rest)) => {
            let words = read_words(heap, rest.trim_end_matches(']'))?;
            (due, reported(heap, report_image(heap, &words)?)?)
        }
        None => {
            let (due, rest) = cut(case)?;
            (due, text_line(heap, &read_text(heap, rest)?)?)
        }
    };
    let is_due = line.as_str() == due.trim_end();
    Ok((!is_due).then_some(line))
}

fn main(rt: HostRuntime) -> anyhow::Result<()> {
    try_lines(&rt, "lists", try_case)
}
