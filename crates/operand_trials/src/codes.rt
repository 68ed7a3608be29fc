// Every operand code, decoded and coded again.
use item::item::Item;
use item::mnemonic::Form;
use operand::edition::Edition;
use operand::kind::Kind;
use operand::operand::{Operand, decode, operand_at};
use std::process::Abort;
use std::test::Fail;

// How many places each kind has, by its number.
static PLACES: [u16; 11] = [1024, 1024, 4096, 2048, 2, 128, 128, 4096, 640, 512, 128];

// Whether an operand of the kind with that number stands at the place.
fn is_there(number: u16, place: u16) -> bool {
    PLACES
        .get(usize::from(number))
        .is_some_and(|places| place < *places)
}

// Inputs and constants are never written, nor what the system writes.
fn is_writable(number: u16, place: u16) -> bool {
    match number {
        1 | 3 | 6 | 9 => true,
        2 => place < 16 * 255 + 10 || place > 16 * 255 + 14,
        7 => place < 16 * 254,
        _ => false,
    }
}

fn check_operand(rt: &impl Abort, operand: Operand, code: u16) {
    let place = code % 4096;
    assert_eq!(rt; operand.code(), code, "{code}");
    assert_eq!(rt; operand.kind.number(), code / 4096, "{code}");
    assert_eq!(rt; operand.place(), place, "{code}");
    assert_eq!(rt; u16::from(operand.group), place / 16, "{code}");
    assert_eq!(rt; u16::from(operand.channel), place % 16, "{code}");
    assert_eq!(rt;
        operand.is_writable(),
        is_writable(code / 4096, place),
        "{code}"
    );
}

// An operand as an item: a term, a pin and what an assignment stores to.
fn check_items(rt: &impl Abort, operand: Operand, code: u16) {
    check_item(rt, Item::Operand(operand), 8, code);
    check_item(rt, Item::Assign(Form::Plain, operand), 30, code);
    check_item(rt, Item::Assign(Form::Not, operand), 31, code);
    check_item(rt, Item::Assign(Form::Minus, operand), 32, code);
    check_item(rt, Item::Assign(Form::Set, operand), 33, code);
    check_item(rt, Item::Assign(Form::Reset, operand), 34, code);
    check_item(rt, Item::Pin(operand), 42, code);
}

pub fn check_item(rt: &impl Abort, item: Item, number: u16, argument: u16) {
    assert_eq!(rt; item.number(), number, "{number} {argument}");
    assert_eq!(rt; item.argument(), argument, "{number} {argument}");
    assert_eq!(rt; item.cells(), 0, "{number} {argument}");
}

#[test]
fn codes_are_undone(rt: HostRuntime) -> Result<(), Fail> {
    let mut known = 0usize;
    let mut not_writable = 0usize;
    for code in 0..=u16::MAX {
        if let Some(operand) = decode(Edition::Series90, code) {
            assert!(rt; is_there(code / 4096, code % 4096), "{}", code);
            check_operand(&rt, operand, code);
            check_items(&rt, operand, code);
            known = known.saturating_add(1);
            if !operand.is_writable() {
                not_writable = not_writable.saturating_add(1);
            }
        } else {
            assert!(rt; !is_there(code / 4096, code % 4096), "{}", code);
        }
    }
    assert_eq!(rt;
        known,
        1024 + 1024 + 4096 + 2048 + 2 + 128 + 128 + 4096 + 640 + 512 + 128
    );
    // E, K, EW, KW and KD, M 255,10 to 255,14, and MW 254,00 to 255,15
    assert_eq!(rt; not_writable, 1024 + 2 + 128 + 640 + 128 + 5 + 32);
    Ok(())
}

// Whether there is an operand of the kind at the group and the channel: as it must be.
fn check_at(rt: &impl Abort, kind: Kind, group: u8, channel: u8) -> bool {
    let place = 16 * u16::from(group) + u16::from(channel);
    let expected = channel < 16 && is_there(kind.number(), place);
    let found = operand_at(Edition::Series90, kind, group, channel);
    let operand = Operand {
        kind,
        group,
        channel,
    };
    assert_eq!(rt; found, expected.then_some(operand));
    found.is_some()
}

// Every group and channel of a byte.
fn check_kind(rt: &impl Abort, kind: Kind) -> usize {
    let mut known = 0usize;
    for group in 0..=u8::MAX {
        for channel in 0..=u8::MAX {
            if check_at(rt, kind, group, channel) {
                known = known.saturating_add(1);
            }
        }
    }
    known
}

#[test]
fn operands_lie_in_their_range(rt: HostRuntime) -> Result<(), Fail> {
    for (number, places) in PLACES.iter().enumerate() {
        let kind = Kind::try_from(number as u16).map_err(|_| "no kind")?;
        assert_eq!(rt; check_kind(&rt, kind), usize::from(*places));
    }
    Ok(())
}
