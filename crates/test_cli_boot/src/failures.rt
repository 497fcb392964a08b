//! How each command ends where one of its calls fails.

use boot_run::{Status, run};
use pico_board::{MemSink, MemStore};
use std::alloc::Global;
use std::test::Fail;
use test_fixtures::{ARM_1_0, PAIR, VECTORS, elf_file, flash, words};

/// The words of each command that reads a file or writes one, its reads, and its writes.
const COMMANDS: [(&[&str], u64, u64); 25] = [
    (&["boot", "f", "o", "arm", "normal"], 2, 0),
    (&["info", "f", "o", "arm"], 2, 0),
    (&["data", "f", "o", "arm", "normal"], 2, 0),
    (&["explain", "f", "o", "arm", "normal"], 2, 0),
    (&["caveats", "f", "o", "arm", "normal"], 2, 0),
    (&["map", "f", "o", "arm", "a"], 2, 1),
    (&["replay", "f", "o", "arm", "s", "a", "b"], 3, 2),
    (&["sweep", "f", "o", "arm", "s", "t"], 4, 0),
    (&["chart", "f", "o", "arm", "s", "t", "a"], 4, 1),
    (&["cuts", "f", "o", "arm", "s", "t"], 4, 0),
    (&["check", "f", "o", "arm", "s", "t", "r"], 5, 0),
    (&["seal", "i", "p", "a"], 2, 1),
    (&["elf", "e", "p", "a"], 2, 1),
    (&["firm", "i", "arm"], 1, 0),
    (&["table", "t", "a"], 1, 1),
    (&["otp", "j", "a"], 1, 1),
    (&["uf2", "i", "rp2350-arm-s", "a"], 1, 1),
    (&["plan", "f", "o", "arm", "i", "a"], 3, 1),
    (&["load", "f", "o", "arm", "i", "a"], 3, 1),
    (&["stage", "f", "o", "arm", "i", "a"], 3, 1),
    (&["copy", "u", "a"], 1, 1),
    (&["list", "s"], 1, 0),
    (&["script", "x", "a"], 1, 1),
    (&["script", "x", "i", "a"], 2, 1),
    (&["gen", "7"], 0, 0),
];

/// A store with an input of each form, of which the listed read and the listed write fail: a flash,
/// an OTP, a script, an image, an ELF file, and texts. The texts of what is asked of an update ask
/// for no effect, and one of them for a digest too, which the image that starts lacks.
fn store(alloc: Global, bad_read: u64, bad_write: u64) -> Result<MemStore, Fail> {
    let parts: [(usize, &[u32]); 3] = [(0, &PAIR), (0x2000, &VECTORS), (0x2100, &ARM_1_0)];
    let image: [(usize, &[u32]); 2] = [(0, &VECTORS), (0x100, &ARM_1_0)];
    let spec = b"{\"processor\":\"arm\"}".as_slice();
    let table = b"{\"unpartitioned\":{\"permissions\":{\"secure\":\"rw\",\"nonsecure\":\"rw\",\
        \"bootloader\":\"rw\"}},\"partitions\":[]}"
        .as_slice();
    let files = vec![in alloc;
        (
            String::from_str(alloc, "f")?,
            flash(alloc, &parts, 262_144)?
        ),
        (String::from_str(alloc, "o")?, Vec::new(alloc)),
        (String::from_str(alloc, "s")?, vec![in alloc; 4_u8, 0]?),
        (String::from_str(alloc, "i")?, flash(alloc, &image, 0x11c)?),
        (String::from_str(alloc, "e")?, elf_file(alloc)?),
        (String::from_str(alloc, "p")?, Vec::from_slice(alloc, spec)?),
        (String::from_str(alloc, "u")?, flash(alloc, &[], 512)?),
        (
            String::from_str(alloc, "x")?,
            Vec::from_slice(alloc, b"power\n".as_slice())?
        ),
        (
            String::from_str(alloc, "t")?,
            Vec::from_slice(alloc, table)?
        ),
        (
            String::from_str(alloc, "j")?,
            Vec::from_slice(alloc, b"{}".as_slice())?
        ),
        (
            String::from_str(alloc, "r")?,
            Vec::from_slice(alloc, b"{\"effect\":\"none\"}".as_slice())?
        ),
        (
            String::from_str(alloc, "h")?,
            Vec::from_slice(alloc, b"{\"effect\":\"none\",\"hash\":true}".as_slice())?
        ),
    ]?;
    let bad_reads = vec![in alloc; bad_read]?;
    Ok(MemStore::make(alloc, files, bad_reads, vec![in alloc; bad_write]?))
}

/// How a run ends of which the read, the write and the put of these numbers fail. Behind the
/// status: which of its two files stand, and whether it has put a byte.
fn ended(
    alloc: Global,
    texts: &[&str],
    bad: (u64, u64, u64),
) -> Result<(Status, bool, bool, bool), Fail> {
    let (read, write, put) = bad;
    let mut store = store(alloc, read, write)?;
    let mut out = MemSink::make(alloc, vec![in alloc; put]?);
    let status = run(alloc, &words(alloc, texts)?, &mut store, &mut out);
    let (first, second) = (store.file("a").is_some(), store.file("b").is_some());
    Ok((status, first, second, !out.bytes().is_empty()))
}

#[test]
fn each_failing_call_ends_its_command(rt: HostRuntime) -> Result<(), Fail> {
    let alloc = rt.alloc();
    for (texts, reads, writes) in COMMANDS {
        for read in 0..reads {
            let end = ended(alloc, texts, (read, writes, 1))?;
            assert_eq!(rt;
                end,
                (Status::ReadFault, false, false, false),
                "read {read}"
            );
        }
        for write in 0..writes {
            let end = ended(alloc, texts, (reads, write, 1))?;
            assert_eq!(rt;
                end,
                (Status::WriteFault, write == 1, false, false),
                "write {write}"
            );
        }
        let end = ended(alloc, texts, (reads, writes, 0))?;
        assert_eq!(rt; end, (Status::OutputFault, writes >= 1, writes == 2, false));
        let end = ended(alloc, texts, (reads, writes, 1))?;
        assert_eq!(rt; end, (Status::Done, writes >= 1, writes == 2, true));
    }
    Ok(())
}

/// A check of a script that writes nothing ends with this status, and puts its text. Each read and
/// the put may fail.
fn ends_with(alloc: Global, words: &[&str], reads: u64, status: Status) -> Result<bool, Fail> {
    let mut is_so = ended(alloc, words, (reads, 0, 1))? == (status, false, false, true);
    for read in 0..reads {
        let end = ended(alloc, words, (read, 0, 1))?;
        is_so = is_so && end == (Status::ReadFault, false, false, false);
    }
    let end = ended(alloc, words, (reads, 0, 0))?;
    Ok(is_so && end == (Status::OutputFault, false, false, false))
}

#[test]
fn a_check_of_no_effect_ends_with_its_verdict(rt: HostRuntime) -> Result<(), Fail> {
    let words: &[&str] = &["check", "f", "o", "arm", "s", "t"];
    assert!(rt; ends_with(rt.alloc(), words, 4, Status::NoEffect)?);
    Ok(())
}

#[test]
fn a_check_of_what_is_not_met_ends_with_its_verdict(rt: HostRuntime) -> Result<(), Fail> {
    let words: &[&str] = &["check", "f", "o", "arm", "s", "t", "h"];
    assert!(rt; ends_with(rt.alloc(), words, 5, Status::Unmet)?);
    Ok(())
}
