// The text of a case.
ghost use Rattle.std.specs.Prelude.{◌≡◌, ◌++◌, IfOk, OnOk};
ghost use Rattle.cases.specs.Texts.{before_bar, after_bar, copies, shown_by, many_of, text_of};

use crate::escape::append;
use anyhow::Context;
use std::alloc::{AllocError, Global};

// What stands before a bar, and what behind it.
pub fn cut(shown: &str) -> anyhow::Result<(&str, &str)>
    ensures { IfOk result (λ p. (p.0.now ≡ before_bar shown.now) × (p.1.now ≡ after_bar shown.now)) }
{
    shown.split_once('|').context("a case without its end")
}

#[tactic(auto, using(crate::proofs::Copies::no_copies, crate::proofs::Copies::one_copy))]
fn append_times(text: &mut Vec<u8>, part: &str, times: usize) -> Result<(), AllocError>
    ensures { OnOk result (text.new.items ≡ text.old.items ++ copies times (shown_by part.now)) }
{
    for _ in 0..times {
        append(text, part)?;
    }
    Ok(())
}

// Appends PART as often as it stands, and BACK.
#[tactic(auto, using(std::proofs::lemmas::List::append_assoc))]
fn append_many(text: &mut Vec<u8>, shown: &str) -> anyhow::Result<()>
    ensures { OnOk result (text.new.items ≡ text.old.items ++ many_of shown.now) }
{
    let (part, rest) = cut(shown)?;
    let (times, rest) = cut(rest)?;
    let (back, _) = cut(rest)?;
    append_times(text, part, times.parse()?)?;
    append(text, back)?;
    Ok(())
}

// The text that is written `TEXT|`, or `FRONT|PART|TIMES|BACK|`.
pub fn read_text(heap: Global, shown: &str) -> anyhow::Result<Vec<u8>>
    ensures { IfOk result (λ v. v.items ≡ text_of shown.now) }
{
    let (front, rest) = cut(shown)?;
    let mut text = Vec::new(heap);
    append(&mut text, front)?;
    if !rest.is_empty() {
        append_many(&mut text, rest)?;
    }
    Ok(text)
}

#[cfg(test)]
mod tests {
    use super::*;

    #[test]
    fn texts_are_read(rt: HostRuntime) -> anyhow::Result<()> {
        let mut text = Vec::new(rt.alloc());
        append(&mut text, "\\n\\x41\\\\x")?;
        assert_eq!(rt; text.as_slice(), b"\nA\\x".as_slice());
        let text = read_text(rt.alloc(), "ab\\t|c\\x0a|3|d|")?;
        assert_eq!(rt; text.as_slice(), b"ab\tc\nc\nc\nd".as_slice());
        assert!(rt; cut("no end").is_err());
        Ok(())
    }
}
