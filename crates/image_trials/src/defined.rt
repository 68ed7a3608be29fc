// All constants that a list can have.
use report::report_text;
use std::alloc::Global;
use std::ops::Range;
use std::test::Fail;

// A constant for each of these places of a kind.
fn define_all(
    heap: Global,
    text: &mut Vec<u8>,
    letters: &str,
    places: Range<u16>,
) -> Result<(), Fail> {
    for place in places {
        let group = place / 16;
        let channel = place % 16;
        let constant = format!(in heap; "{letters} {group},{channel} := -{place}\n")?;
        text.extend_from_slice(constant.as_bytes())?;
    }
    Ok(())
}

// KW 00,00 to 39,15 but for the three reserved ones, and KD 00,00 to 07,15.
#[test]
fn every_constant(rt: HostRuntime) -> Result<(), Fail> {
    let mut text = b"!PE\n".to_vec(rt.alloc())?;
    define_all(rt.alloc(), &mut text, "KW", 0..13)?;
    define_all(rt.alloc(), &mut text, "KW", 16..640)?;
    define_all(rt.alloc(), &mut text, "KD", 0..128)?;
    let report = report_text(rt.alloc(), &text)?;
    assert_eq!(rt;
        report.line.as_str(),
        "translated 1 items 765 constants 0 cells"
    );
    Ok(())
}
