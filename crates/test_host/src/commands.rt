//! Commands over a board in memory, with bytes and a digest that were worked out outside.

ghost use Rattle.std.specs.Prelude.{◌≡◌};

use pico_board::Board;
use picoboot_cmd::{Cmd, CmdFault, Done, HashReply, apply, read_cmd, write_cmd};
use std::test::Fail;
use test_fixtures::{board_of, flash};

/// A command with token 7 on these bytes of the flash.
fn command(id: u8, transfer: u32, address: u32, size: u32) -> Cmd {
    let [a, b, c, d] = address.to_le_bytes();
    let [e, f, g, h] = size.to_le_bytes();
    Cmd {
        token: 7,
        id,
        arg_size: 8,
        transfer,
        args: [a, b, c, d, e, f, g, h, 0, 0, 0, 0, 0, 0, 0, 0],
    }
}

#[test]
fn a_command_is_read_and_written(rt: HostRuntime) -> Result<(), Fail> {
    let bytes = [
        0x0b, 0xd1, 0x1f, 0x43, 7, 0, 0, 0, 3, 8, 0, 0, 0, 0, 0, 0, 0, 0x10, 0, 0x10, 0, 0x10, 0,
        0, 0, 0, 0, 0, 0, 0, 0, 0,
    ];
    let erase = command(3, 0, 0x1000_1000, 0x1000);
    assert_eq!(rt; read_cmd(&bytes), Ok(erase));
    assert_eq!(rt; write_cmd(&erase), bytes);
    assert_eq!(rt; read_cmd(&[0; 32]), Err(CmdFault::Magic));
    Ok(())
}

#[test]
fn what_is_written_is_read(rt: HostRuntime) -> Result<(), Fail> {
    let mut board = board_of(rt.alloc(), flash(rt.alloc(), &[], 8192)?)?;
    let mut reply = HashReply::new();
    let served = Ok(Done {
        status: 0,
        boot: None,
    });
    let write = command(5, 3, 0x1000_1000, 3);
    let read = command(0x84, 3, 0x1000_1000, 3);
    assert!(rt; board.powered());
    assert_eq!(rt;
        apply(&mut board, None, false, &write, b"abc", &mut reply),
        served
    );
    assert!(rt; board.powered());
    assert_eq!(rt;
        apply(&mut board, None, true, &read, &[], &mut reply),
        served
    );
    assert_eq!(rt; reply.count(), 3);
    assert_eq!(rt;
        reply.digest(),
        [
            0xba, 0x78, 0x16, 0xbf, 0x8f, 0x01, 0xcf, 0xea, 0x41, 0x41, 0x40, 0xde, 0x5d, 0xae,
            0x22, 0x23, 0xb0, 0x03, 0x61, 0xa3, 0x96, 0x17, 0x7a, 0x9c, 0xb4, 0x10, 0xff, 0x61,
            0xf2, 0x00, 0x15, 0xad,
        ]
    );
    Ok(())
}
