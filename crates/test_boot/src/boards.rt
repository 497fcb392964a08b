//! A board in memory.

use pico_board::{Bench, Board, MemBoard, PowerLost};
use std::alloc::Global;
use std::test::Fail;

/// A board of two sectors whose bytes are 0xdb, and of rows of 0x10.
fn board(alloc: Global) -> Result<MemBoard, Fail> {
    let flash = vec![in alloc; 0xdb_u8; 8192]?;
    let otp = vec![in alloc; 0x10_u32; 4096]?;
    Ok(MemBoard::new(alloc, flash, otp)?)
}

#[test]
fn an_armed_cut_waits_for_its_step(rt: HostRuntime) -> Result<(), Fail> {
    let mut made = board(rt.alloc())?;
    made.arm_cut(1, false, &[]);
    assert!(rt; made.powered());
    assert!(rt; made.flash_len() == 8192);
    assert_eq!(rt; made.erase(1), Ok(()));
    assert_eq!(rt; made.erase(0), Err(PowerLost));
    made.power_on();
    assert_eq!(rt; made.raise(3, 2), Ok(()));
    assert_eq!(rt; made.steps(), 2);
    assert_eq!(rt; made.otp_read(3), 0x12);
    let mut part = [0_u8; 2];
    made.read(4095, &mut part);
    assert_eq!(rt; part, [0xdb, 0xff]);
    Ok(())
}
