//! What `check` answers, with enough memory for it. The texts were worked out by hand, by the rules
//! of each line.

ghost use Rattle.std.specs.Prelude.{IfOk};
ghost use Rattle.pico_board.specs.MemBoard.{state_of};
ghost use Rattle.boot_session.specs.Standing.{IsUnarmed};

use boot_script::Script;
use check_require::require_of;
use cli_check::{check, check_asked};
use cli_course::Status;
use cli_inputs::Pattern;
use pico_board::{Cpu, MemBoard};
use std::alloc::Global;
use std::test::Fail;
use test_fixtures::{ARM_1_0, PAIR, VECTORS, flash};

/// A script in which power comes on, and nothing more.
const IDLE: [u8; 2] = [4, 0];

/// What is found of it on a board whose A starts and whose B is empty.
const IDLE_LINES: &str = "former start window=0x00002000+0x0001e000 block=0x00000100 pc=0x10000201 \
    sp=0x20082000 limit=0x00000000 version=1.0 rollback=none trial=no\n\
    end start window=0x00002000+0x0001e000 block=0x00000100 pc=0x10000201 \
    sp=0x20082000 limit=0x00000000 version=1.0 rollback=none trial=no\n\
    effect image=none table=no flash=no\n\
    starts ok version=1.0 rollback=none trial=no hash=no firm=no loose=0\n\
    fallback window=0x00020000+0x0001e000 fault=no-block\n\
    records ok\n\
    again yes\n\
    rows raised=0 next=0 by-mixed=0\n\
    law session=none\n\
    law boot=none\n\
    law buy=none\n\
    cuts former=0 finished=0 whole=0 tail=0 mixed=0 bootsel=0 falls=0\n";

/// That board, with power and with no cut armed.
fn board(alloc: Global) -> Result<MemBoard, Fail>
    ensures { IfOk result (λ board. IsUnarmed (state_of board)) }
{
    let parts: [(usize, &[u32]); 3] = [(0, &PAIR), (0x2000, &VECTORS), (0x2100, &ARM_1_0)];
    let rows = vec![in alloc; 0_u32; 4096]?;
    Ok(MemBoard::new(alloc, flash(alloc, &parts, 262_144)?, rows)?)
}

#[test]
fn a_script_of_no_step_has_no_effect(rt: HostRuntime) -> Result<(), Fail> {
    let alloc = rt.alloc();
    let script = Script::read(&IDLE)?;
    let pattern = Pattern { bytes: &[0x5a] };
    let answer = check(alloc, board(alloc)?, Cpu::Arm, "s", script, pattern)?;
    assert_eq!(rt; answer.status, Status::NoEffect);
    let text = format!(in alloc; "{IDLE_LINES}unmet effect\n")?;
    assert_eq!(rt; answer.text.as_slice(), text.as_bytes());
    assert!(rt; answer.files.is_empty());
    Ok(())
}

#[test]
fn a_script_passes_that_does_what_is_asked(rt: HostRuntime) -> Result<(), Fail> {
    let alloc = rt.alloc();
    let script = Script::read(&IDLE)?;
    let pattern = Pattern { bytes: &[0x5a] };
    let ask = require_of(alloc, b"{\"effect\": \"none\"}")?;
    let answer = check_asked(alloc, board(alloc)?, Cpu::Arm, "s", script, pattern, &ask)?;
    assert_eq!(rt; answer.status, Status::Done);
    assert_eq!(rt; answer.text.as_slice(), IDLE_LINES.as_bytes());
    assert!(rt; answer.files.is_empty());
    Ok(())
}
