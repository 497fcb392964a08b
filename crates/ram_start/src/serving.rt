//! The RAM commands.

ghost use Rattle.std.specs.Prelude.{◌≡◌, ◌≢◌, ◌+◌, ◌≤◌, ◌++◌, ℕ, List, IsTrue, None, length, true};
ghost use Rattle.std.specs.Result.{result_ok};
ghost use Rattle.load_map.specs.declared.addresses.TheConstants.{SRAM_END as END_OF_SRAM};
ghost use Rattle.ram_start.specs.Images.{ram_image};
ghost use Rattle.picoboot_cmd.specs.declared.kinds.TheConstants.{REBOOT as REBOOT_ID};
ghost use Rattle.picoboot_cmd.specs.Arguments.{address, size};
ghost use Rattle.picoboot_cmd.specs.Checks.{has_transfer, first_failing};
ghost use Rattle.sector_pool.specs.Keeping.{KeepsOut};
ghost use Rattle.sector_pool.specs.Pool.{HasFree};
ghost use Rattle.ram_start.specs.Serving.{asks_reboot, asks_transfer, is_ram_command, is_range, ram_command, ram_reply, ram_stored, reboot_done, reboot_image, transfer_checks};
ghost use Rattle.load_map.specs.Addresses.{in_sram};

use crate::checking::ram_check;
use crate::kinds::PRECONDITION;
use crate::ram::Ram;
use image_check::Started;
use load_map::{SRAM_END, SRAM_START};
use pico_board::{Board, Cpu, SliceView};
use picoboot_cmd::kinds::{
    ADDRESS, INVALID_ARGUMENT, INVALID_STATE, OK, READ, REBOOT, TRANSFER_LENGTH, WRITE,
};
use picoboot_cmd::{Cmd, Reply};
use sector_pool::SectorPool;

/// What a RAM command is answered.
#[derive(Clone, PartialEq, Eq, Debug, Drop)]
pub struct RamDone {
    /// The number of the first check that fails, and 0 where none does.
    pub status: u32,
    /// The image that starts: there is one exactly for a reboot with status 0.
    pub start: Option<Started>,
}

/// Whether the command reads or writes at an address of SRAM or above.
fn asks_transfer(cmd: &Cmd) -> bool
    ensures { result ≡ asks_transfer cmd.now }
{
    (cmd.id == READ || cmd.id == WRITE) && (cmd.arg_size == 8 && SRAM_START <= cmd.address())
}

/// Whether the command is a reboot into RAM.
fn asks_reboot(cmd: &Cmd) -> bool
    ensures { result ≡ asks_reboot cmd.now }
{
    cmd.id == REBOOT
        && (cmd.arg_size == 16 && (cmd.reboot_flags() == 3 || cmd.reboot_flags() == 0x103))
}

/// Whether a command is a RAM command. It is a read or a write of argument size 8 at an address of
/// at least 0x20000000, or a reboot of argument size 16 whose flags are 3 or 0x103.
pub fn ram_asks(cmd: &Cmd) -> bool
    ensures { result ≡ is_ram_command cmd.now }
{
    asks_transfer(cmd) || asks_reboot(cmd)
}

/// Whether the range of addresses lies in SRAM.
fn is_in_sram(address: u32, size: u32) -> bool
    ensures { result ≡ in_sram address size }
{
    SRAM_START <= address && u64::from(address) + u64::from(size) <= u64::from(SRAM_END)
}

/// Whether a reboot names a range of SRAM that begins with a word and has one at least.
fn is_range(cmd: &Cmd) -> bool
    ensures { result ≡ is_range cmd.now }
{
    cmd.reboot_p0() % 4 == 0
        && (4 <= cmd.reboot_p1() && is_in_sram(cmd.reboot_p0(), cmd.reboot_p1()))
}

/// Whether the transfer length and the payload's length are those of a RAM command.
fn has_transfer(cmd: &Cmd, payload: &[u8]) -> bool
    requires { is_ram_command cmd.now ≡ true }
    ensures { result ≡ has_transfer cmd.now payload.now }
{
    if cmd.id == REBOOT {
        return cmd.transfer == 0 && payload.is_empty();
    }
    if cmd.id == WRITE {
        return cmd.transfer == cmd.size() && payload.len() == cmd.transfer as usize;
    }
    cmd.transfer == cmd.size() && payload.is_empty()
}

/// The status of a read or a write.
fn transfer_status(busy: bool, cmd: &Cmd, payload: &[u8]) -> u32
    requires { is_ram_command cmd.now ≡ true }
    ensures { result ≡ first_failing (transfer_checks busy cmd.now payload.now) }
{
    if cmd.id == WRITE && busy {
        return INVALID_STATE;
    }
    if !has_transfer(cmd, payload) {
        return TRANSFER_LENGTH;
    }
    if !is_in_sram(cmd.address(), cmd.size()) {
        return ADDRESS;
    }
    OK
}

/// The image of these bytes of SRAM, which are seen from `base` on, if there is one.
fn image_of<B: Board>(
    board: &B,
    pool: &mut SectorPool,
    bytes: &[u8],
    base: u32,
    cpu: Cpu,
) -> Option<Started>
    requires power { IsTrue (B.state board.now).powered }
    requires free { HasFree pool.old }
    requires few { length bytes.now ≤ 532480 }
    requires inside { base + length bytes.now ≤ END_OF_SRAM }
    ensures exact { result ≡ result_ok (ram_image (B.state board.now).content bytes.now base cpu) }
    ensures kept { KeepsOut pool.old pool.new }
{
    ram_check(board, pool, &SliceView { bytes }, base, cpu).ok()
}

/// The image in the range that a reboot names, if there is one.
fn reboot_image<B: Board>(
    board: &B,
    pool: &mut SectorPool,
    ram: &Ram,
    cpu: Cpu,
    cmd: &Cmd,
) -> Option<Started>
    requires power { IsTrue (B.state board.now).powered }
    requires free { HasFree pool.old }
    requires range { is_range cmd.now ≡ true }
    ensures exact { result ≡ reboot_image (B.state board.now).content ram.now cpu cmd.now }
    ensures kept { KeepsOut pool.old pool.new }
{
    let at = (cmd.reboot_p0() - SRAM_START) as usize;
    let bytes = &ram.bytes()[at..at + cmd.reboot_p1() as usize];
    image_of(board, pool, bytes, cmd.reboot_p0(), cpu)
}

/// What a reboot into RAM is answered.
fn reboot<B: Board>(
    board: &B,
    pool: &mut SectorPool,
    ram: &Ram,
    cpu: Cpu,
    cmd: &Cmd,
    payload: &[u8],
) -> RamDone
    requires power { IsTrue (B.state board.now).powered }
    requires free { HasFree pool.old }
    requires asks { is_ram_command cmd.now ≡ true }
    requires reboots { cmd.now.id ≡ REBOOT_ID }
    ensures exact { result ≡ reboot_done
        (B.state board.now).content ram.now cpu cmd.now payload.now }
    ensures kept { KeepsOut pool.old pool.new }
{
    if !has_transfer(cmd, payload) {
        return refused(TRANSFER_LENGTH);
    }
    if !is_range(cmd) {
        return refused(INVALID_ARGUMENT);
    }
    match reboot_image(board, pool, ram, cpu, cmd) {
        Some(image) => RamDone {
            status: OK,
            start: Some(image),
        },
        None => refused(PRECONDITION),
    }
}

/// The answer of a command that does nothing.
fn refused(status: u32) -> RamDone
    ensures status { result.status ≡ status }
    ensures start { result.start ≡ None }
{
    RamDone {
        status,
        start: None,
    }
}

/// Does the work of a read or a write.
fn transfer<R: Reply>(ram: &mut Ram, cmd: &Cmd, payload: &[u8], reply: &mut R)
    requires inside { in_sram (address cmd.now) (size cmd.now) ≡ true }
    requires sizes { has_transfer cmd.now payload.now ≡ true }
    requires asks { asks_transfer cmd.now ≡ true }
    ensures ram { ram.new ≡ ram_stored ram.old cmd.now payload.now }
    ensures reply { (before : List ℕ) → R.stands_for reply.old before
        → R.stands_for reply.new (before ++ ram_reply ram.old cmd.now) }
{
    let at = cmd.address() - SRAM_START;
    if cmd.id == WRITE {
        ram.store(at, payload);
    } else {
        let start = at as usize;
        reply.put(&ram.bytes()[start..start + cmd.size() as usize]);
    }
}

/// Serves a RAM command, while a download is busy or not. It is a read or a write of SRAM, or a
/// reboot that starts an image there. Its status is the number of the first of its checks that
/// fails, and 0 where none does. The checks are 9, a write while a download is busy; 3, a transfer
/// length that is not the size read or written, or a payload that is not that of a write; 4, a read
/// or a write that leaves SRAM; 11, a reboot whose range does not begin with a word, has none, or
/// leaves SRAM; 13, a reboot whose range holds no valid image. With another status than 0 it does
/// nothing. It takes no memory, and the pool keeps what is out.
pub fn ram_apply<B: Board, R: Reply>(
    board: &B,
    pool: &mut SectorPool,
    ram: &mut Ram,
    cpu: Cpu,
    busy: bool,
    cmd: &Cmd,
    payload: &[u8],
    reply: &mut R,
) -> RamDone
    requires power { IsTrue (B.state board.now).powered }
    requires free { HasFree pool.old }
    requires asks { is_ram_command cmd.now ≡ true }
    ensures status { result.status
        ≡ (ram_command (B.state board.now).content ram.old cpu busy cmd.now payload.now).status }
    ensures start { result.start ≡
        (ram_command (B.state board.now).content ram.old cpu busy cmd.now payload.now).start }
    ensures ram { ram.new ≡ (ram_command
        (B.state board.now).content ram.old cpu busy cmd.now payload.now).ram }
    ensures reply { (before : List ℕ) → R.stands_for reply.old before → R.stands_for reply.new
        (before ++ (ram_command (B.state board.now).content ram.old cpu busy cmd.now
        payload.now).reply) }
    ensures refused { result.status ≢ 0 → (ram.new ≡ ram.old) × (reply.new ≡ reply.old) }
    ensures kept { KeepsOut pool.old pool.new }
{
    if cmd.id == REBOOT {
        return reboot(board, pool, ram, cpu, cmd, payload);
    }
    let status = transfer_status(busy, cmd, payload);
    if status == OK {
        transfer(ram, cmd, payload, reply);
    }
    refused(status)
}
