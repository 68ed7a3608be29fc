// Operands at the ends of their kinds, stored and read back.
use memory::memory::Memory;
use operand::kind::Kind;
use operand::operand::Operand;
use std::process::Abort;
use std::test::Fail;

// An operand of new memory, the value stored in it, and what it reads then.
fn trials() -> [(Operand, i32, i32); 40] {
    [
        (operand(Kind::Input, 0, 0), 1, 0),
        (operand(Kind::Input, 63, 15), 1, 0),
        (operand(Kind::Output, 0, 0), 1, 1),
        (operand(Kind::Output, 63, 15), -1, 1),
        (operand(Kind::Output, 64, 0), 1, 0),
        (operand(Kind::Marker, 0, 0), 1, 1),
        (operand(Kind::Marker, 255, 15), 2, 1),
        (operand(Kind::Marker, 255, 15), 0, 0),
        (operand(Kind::Step, 0, 0), 0, 1),
        (operand(Kind::Step, 0, 1), 0, 0),
        (operand(Kind::Step, 0, 1), 1, 1),
        (operand(Kind::Step, 127, 15), 1, 1),
        (operand(Kind::Step, 128, 0), 1, 0),
        (operand(Kind::Step, 128, 15), 1, 0),
        (operand(Kind::Constant, 0, 0), 1, 0),
        (operand(Kind::Constant, 0, 1), 0, 1),
        (operand(Kind::Constant, 0, 2), 1, 0),
        (operand(Kind::InputWord, 0, 0), 5, 0),
        (operand(Kind::InputWord, 7, 15), 5, 0),
        (operand(Kind::OutputWord, 0, 0), 32767, 32767),
        (operand(Kind::OutputWord, 7, 15), 32768, 32767),
        (operand(Kind::OutputWord, 7, 15), -32768, -32767),
        (operand(Kind::OutputWord, 8, 0), 5, 0),
        (operand(Kind::MarkerWord, 0, 0), -32767, -32767),
        (operand(Kind::MarkerWord, 255, 15), -32768, -32767),
        (operand(Kind::MarkerWord, 253, 15), 2_147_483_647, 32767),
        (operand(Kind::MarkerWord, 254, 0), -2_147_483_648, -32767),
        (operand(Kind::ConstantWord, 0, 0), 5, 0),
        (operand(Kind::ConstantWord, 39, 15), 5, 0),
        (operand(Kind::MarkerDouble, 0, 0), -7, -7),
        (
            operand(Kind::MarkerDouble, 31, 15),
            2_147_483_647,
            2_147_483_647,
        ),
        (
            operand(Kind::MarkerDouble, 31, 15),
            -2_147_483_647,
            -2_147_483_647,
        ),
        (
            operand(Kind::MarkerDouble, 31, 15),
            -2_147_483_648,
            -2_147_483_647,
        ),
        (operand(Kind::MarkerDouble, 32, 0), 5, 0),
        (operand(Kind::ConstantDouble, 0, 0), 5, 0),
        (operand(Kind::ConstantDouble, 7, 15), 5, 0),
        (operand(Kind::Marker, 17, 3), 1, 1),
        (operand(Kind::MarkerWord, 17, 3), 12, 12),
        (operand(Kind::MarkerDouble, 17, 3), 70_000, 70_000),
        (operand(Kind::OutputWord, 3, 3), -12, -12),
    ]
}

pub fn operand(kind: Kind, group: u8, channel: u8) -> Operand {
    Operand {
        kind,
        group,
        channel,
    }
}

fn check_row(rt: &impl Abort, o: Operand, stored: i32, reads: i32) {
    let code = o.code();
    let beside = operand(o.kind, o.group ^ 1, o.channel);
    let new = Memory::new();
    let mut memory = Memory::new();
    memory.store(o, stored);
    assert_eq!(rt; memory.read(o), reads, "{code}");
    assert_eq!(rt; memory.read(beside), new.read(beside), "{code}");
}

// The set step of a chain, as its bits tell it, where no other one is set.
fn set_step(memory: &Memory, group: u8) -> Option<u8> {
    let mut set = (0..16).filter(|step| memory.read(operand(Kind::Step, group, *step)) == 1);
    let step = set.next()?;
    set.next().is_none().then_some(step)
}

fn check_chain(rt: &impl Abort) {
    // the step, the value stored in it, the step then set
    let moves = [
        (3u8, 1, 3u8),
        (3, 0, 3),
        (15, -1, 15),
        (0, 0, 15),
        (15, 1, 15),
        (0, 7, 0),
    ];
    let mut memory = Memory::new();
    for (step, value, set) in moves {
        memory.store(operand(Kind::Step, 5, step), value);
        assert_eq!(rt; set_step(&memory, 5), Some(set));
        assert_eq!(rt; set_step(&memory, 4), Some(0));
        assert_eq!(rt; set_step(&memory, 6), Some(0));
    }
}

#[test]
fn operands_read_what_was_stored(rt: HostRuntime) -> Result<(), Fail> {
    for (operand, stored, reads) in trials() {
        check_row(&rt, operand, stored, reads);
    }
    check_chain(&rt);
    Ok(())
}
