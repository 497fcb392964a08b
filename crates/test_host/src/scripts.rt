//! A script with bytes that were worked out by hand.

ghost use Rattle.std.specs.Prelude.{◌≡◌, length};

use boot_script::{Event, next_event, write_event};
use pico_board::BootKind;
use std::test::Fail;

/// The bytes of a script of four events.
const SCRIPT: [u8; 18] = [
    4, 5, 4, 0, 0, 2, 0x10, 3, 2, 1, 0, 0, 1, 2, 0, 0xa5, 0x5a, 6,
];

#[test]
fn a_script_is_written_and_read(rt: HostRuntime) -> Result<(), Fail> {
    let alloc = rt.alloc();
    let cut = Event::Cut(258, true, &[0xa5, 0x5a]);
    let mut out = Vec::new(alloc);
    write_event(alloc, &Event::PowerOn, &mut out)?;
    write_event(
        alloc,
        &Event::Reset(BootKind::Update(0x1002_0000)),
        &mut out,
    )?;
    write_event(alloc, &cut, &mut out)?;
    write_event(alloc, &Event::Buy, &mut out)?;
    assert_eq!(rt; out.as_slice(), SCRIPT.as_slice());
    assert_eq!(rt; next_event(&SCRIPT, 7), Ok((cut, 17)));
    Ok(())
}
