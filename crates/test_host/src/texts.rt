//! Scripts as texts, and texts as scripts, with values that another program worked out.

use boot_script::Script;
use script_text::{TEXT_LIMIT, TextError, TextFault, list_text, read_text};
use std::alloc::Global;
use std::test::Fail;

/// One command of each kind, and one that is none.
const COMMANDS: &str = "\
exclusive 2 # 0
read 0x20000000+0x0000001c # 1
exit-xip # 2
enter-xip # 3
reboot normal # 4
# 5 reboot bootsel token=0x00000006
command 0bd11f43060000000a1000000000000002010000000000000000000000000000
# 6 reboot update=0x10004000 token=0x00000007
command 0bd11f43070000000a1000000000000004010000000000000040001000000000
reboot ram=0x20000000+0x0000001c # 7
# 8 reboot flags=0x00000204 token=0x00000009
command 0bd11f43090000000a1000000000000004020000000000000040001000000000
otp-read 0x0c0 3 # 9
# 10 otp-write row=0xffff count=0 ecc=1 token=0x0000000b
command 0bd11f430b0000000d05000000000000ffff0000010000000000000000000000
info table 256 # 11
info target=0xe48bff59 256 # 12
info device 256 # 13
info partition=4294967295 256 # 14
# 15 info kind=5 token=0x00000010
command 0bd11f43100000008b1000000001000005000000000000000000000000000000
# 16 command 0x55 token=0x00000011
command 0bd11f4311000000550000000000000000000000000000000000000000000000
# 17 command 0x03 token=0x00000012
command 0bd11f4312000000030700000000000000000210001000000000000000000000
# 18 command bad-magic
command 0000000013000000070000000000000000000000000000000000000000000000
end
";

/// The script of those commands, in hexadecimal.
const COMMANDS_SCRIPT: &str = "\
    010bd11f430100000001010000000000000200000000000000000000000000000000000000010bd11f430200\
    0000840800001c000000000000201c000000000000000000000000000000010bd11f43030000000600000000\
    0000000000000000000000000000000000000000000000010bd11f4304000000070000000000000000000000\
    00000000000000000000000000000000010bd11f43050000000a100000000000000000000000000000000000\
    000000000000000000010bd11f43060000000a10000000000000020100000000000000000000000000000000\
    0000010bd11f43070000000a100000000000000401000000000000004000100000000000000000010bd11f43\
    080000000a100000000000000300000000000000000000201c00000000000000010bd11f43090000000a1000\
    00000000000402000000000000004000100000000000000000010bd11f430a0000008c0500000c000000c000\
    030000000000000000000000000000000000010bd11f430b0000000d05000000000000ffff00000100000000\
    0000000000000000000000010bd11f430c0000008b1000000001000001000000000000000000000000000000\
    00000000010bd11f430d0000008b100000000100000200000059ff8be4000000000000000000000000010bd1\
    1f430e0000008b100000000100000300000000000000000000000000000000000000010bd11f430f0000008b\
    1000000001000004000000ffffffff000000000000000000000000010bd11f43100000008b10000000010000\
    0500000000000000000000000000000000000000010bd11f4311000000550000000000000000000000000000\
    00000000000000000000000000010bd11f431200000003070000000000000000021000100000000000000000\
    0000000000000100000000130000000700000000000000000000000000000000000000000000000000000000";

/// The script that is read of a text, in hexadecimal, the number of its records, and its text.
fn read(alloc: Global, text: &[u8]) -> Result<(String, u32, String), TextError> {
    if text.len() > TEXT_LIMIT as usize {
        return Err(TextError::Memory);
    }
    let script = read_text(alloc, text, &[])?;
    let Ok(judged) = Script::read(&script.bytes) else {
        return Err(TextError::Line(0, TextFault::TooLong));
    };
    let Ok(listed) = list_text(alloc, &judged) else {
        return Err(TextError::Memory);
    };
    match hex::encode(alloc, script.bytes.as_slice()) {
        Ok(bytes) => Ok((bytes, script.records, listed)),
        Err(_) => Err(TextError::Memory),
    }
}

/// A page of the bytes 0 to 255, in hexadecimal.
fn page(alloc: Global) -> Result<String, Fail> {
    let mut page = String::new(alloc);
    for byte in 0..=255_u8 {
        page.push_str(&format!(in alloc; "{byte:02x}")?)?;
    }
    Ok(page)
}

/// The last 480 bytes of a UF2 block, in hexadecimal: its page, zeros, and the last word.
fn block_end(alloc: Global, page: &str) -> Result<String, Fail> {
    let mut rest = String::new(alloc);
    rest.push_str(page)?;
    for _ in 0..220 {
        rest.push_str("00")?;
    }
    rest.push_str("306fb10a")?;
    Ok(rest)
}

#[test]
fn each_command_is_read_and_listed(rt: HostRuntime) -> Result<(), Fail> {
    let (script, records, listed) = read(rt.alloc(), COMMANDS.as_bytes())?;
    assert_eq!(rt; script.as_str(), COMMANDS_SCRIPT);
    assert_eq!(rt; records, 20);
    assert_eq!(rt; listed.as_str(), COMMANDS);
    Ok(())
}

#[test]
fn each_record_is_read_and_listed(rt: HostRuntime) -> Result<(), Fail> {
    let alloc = rt.alloc();
    let page = page(alloc)?;
    let rest = block_end(alloc, &page)?;
    let text = format!(in alloc;
        "power # 0\n\
reset normal # 1\n\
reset bootsel # 2\n\
erase 0x10020000+0x00001000 # 3\n\
# 4 write 0x10004000+0x00000003 token=0x00000002\n\
write 0x10004000 01abff\n\
# 5 uf2 number=1 count=2 address=0x10000100 family=0xe48bff59\n\
uf2 1 of 2 at 0x10000100 family=rp2350-arm-s {page}\n\
# 6 uf2 bad payload\n\
uf2 5546320a57515d9e002000000001001080000000010000000200000059ff8be4{rest}\n\
cut 0 before # 7\n\
# 8 cut\n\
cut 4294967295 within a50f\n\
reset update=0x1002abcd # 9\n\
buy # 10\n\
end\n"
    )?;
    let wanted = format!(in alloc;
        "04050000000000050200000000010bd11f43010000000308000000000000000002100010000000000000\
        0000000000000000010bd11f430200000005080000030000000040001003000000000000000000000003\
        00000001abff02\
        5546320a57515d9e002000000001001000010000010000000200000059ff8be4{rest}\
        02\
        5546320a57515d9e002000000001001080000000010000000200000059ff8be4{rest}\
        030000000000000003ffffffff010200a50f0504cdab02100600"
    )?;
    let (script, records, listed) = read(alloc, text.as_bytes())?;
    assert_eq!(rt; script, wanted);
    assert_eq!(rt; records, 12);
    assert_eq!(rt; listed, text);
    Ok(())
}
