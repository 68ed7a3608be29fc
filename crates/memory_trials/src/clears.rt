// Loads, words told, cells and clears.
use crate::places::operand;
use memory::memory::Memory;
use operand::kind::Kind;
use std::process::Abort;
use std::test::Fail;

fn check_inputs(rt: &impl Abort) {
    let mut memory = Memory::new();
    memory.load_inputs(63, 0x4002);
    memory.load_inputs(0, 0xfffe);
    memory.load_inputs(64, 0xffff);
    // group, channel, what is read
    let rows = [
        (63u8, 0u8, 0),
        (63, 1, 1),
        (63, 14, 1),
        (63, 15, 0),
        (0, 0, 0),
        (0, 15, 1),
        (1, 0, 0),
        (62, 15, 0),
        (64, 0, 0),
    ];
    for (group, channel, reads) in rows {
        assert_eq!(rt;
            memory.read(operand(Kind::Input, group, channel)),
            reads,
            "{}",
            group
        );
    }
}

fn check_input_words(rt: &impl Abort) {
    let mut memory = Memory::new();
    let rows = [
        (0u16, 0),
        (0x7fff, 32767),
        (0x8000, -32767),
        (0x8001, -32767),
        (0xffff, -1),
    ];
    for (word, reads) in rows {
        memory.load_input_word(127, word);
        memory.load_input_word(128, word);
        assert_eq!(rt;
            memory.read(operand(Kind::InputWord, 7, 15)),
            reads,
            "{}",
            word
        );
        assert_eq!(rt; memory.read(operand(Kind::InputWord, 8, 0)), 0);
    }
}

fn check_outputs(rt: &impl Abort) {
    let mut memory = Memory::new();
    memory.store(operand(Kind::Output, 2, 1), 1);
    memory.store(operand(Kind::Output, 2, 15), 1);
    for (group, word) in [(1u8, 0u16), (2, 0x8002), (3, 0), (64, 0)] {
        assert_eq!(rt; memory.outputs(group), word, "{}", group);
    }
    for (value, word) in [(5, 5u16), (-1, 0xffff), (-32768, 0x8001), (32768, 0x7fff)] {
        memory.store(operand(Kind::OutputWord, 7, 15), value);
        assert_eq!(rt; memory.output_word(127), word, "{}", word);
        assert_eq!(rt; memory.output_word(128), 0);
    }
}

fn check_constants(rt: &impl Abort) {
    // the kind, the last group of it, what is loaded and what is read
    let rows = [
        (Kind::ConstantWord, 39u8, -40_000, -32767),
        (Kind::ConstantDouble, 7, -2_147_483_648, -2_147_483_647),
        (Kind::ConstantDouble, 7, 500, 500),
        (Kind::MarkerWord, 7, 500, 0),
    ];
    for (kind, group, value, reads) in rows {
        let mut memory = Memory::new();
        memory.load_constant(operand(kind, group, 15), value);
        assert_eq!(rt; memory.read(operand(kind, group, 15)), reads, "{}", group);
        memory.clear(kind, 0, 255);
        assert_eq!(rt; memory.read(operand(kind, group, 15)), 0, "{}", group);
    }
}

fn check_cells(rt: &impl Abort) {
    let mut memory = Memory::new();
    memory.store_cell(0, 1);
    memory.store_cell(1023, -2_147_483_648);
    memory.store_cell(1024, 7);
    for (cell, holds) in [
        (0u16, 1),
        (1, 0),
        (1022, 0),
        (1023, -2_147_483_648),
        (1024, 0),
    ] {
        assert_eq!(rt; memory.cell(cell), holds, "{}", cell);
    }
    memory.clear_cells();
    assert_eq!(rt; memory.cell(0), 0);
    assert_eq!(rt; memory.cell(1023), 0);
}

// Groups 3 to 5 of the kind are cleared; a last group before the first clears nothing.
fn check_clear(rt: &impl Abort, kind: Kind) {
    let number = kind.number();
    let mut memory = Memory::new();
    for group in 0..8u8 {
        memory.store(operand(kind, group, 15), 1);
    }
    memory.clear(kind, 3, 5);
    memory.clear(kind, 7, 6);
    for (group, reads) in [(2u8, 1), (3, 0), (4, 0), (5, 0), (6, 1), (7, 1)] {
        assert_eq!(rt;
            memory.read(operand(kind, group, 15)),
            reads,
            "{number} {group}"
        );
    }
}

#[test]
fn loads_and_clears(rt: HostRuntime) -> Result<(), Fail> {
    check_inputs(&rt);
    check_input_words(&rt);
    check_outputs(&rt);
    check_constants(&rt);
    check_cells(&rt);
    let kinds = [
        Kind::Output,
        Kind::Marker,
        Kind::Step,
        Kind::OutputWord,
        Kind::MarkerWord,
        Kind::MarkerDouble,
    ];
    for kind in kinds {
        check_clear(&rt, kind);
    }
    Ok(())
}
