//! The images that are lost.

ghost use Rattle.std.specs.Prelude.{◌≡◌, All, IfOk, IfSome, IsTrue, length};
ghost use Rattle.std.specs.List.{filter_map};
ghost use Rattle.pico_board.specs.MemBoard.{state_of};
ghost use Rattle.pico_board.specs.declared.boot.BootKind.TheVariants.{Normal};
ghost use Rattle.sector_pool.specs.Pool.{HasFree};
ghost use Rattle.sector_pool.specs.Keeping.{KeepsOut};
ghost use Rattle.boot_rules.specs.Chosen.{Chosen};
ghost use Rattle.boot_rules.specs.Picking.{IsInside};
ghost use Rattle.check_images.specs.Boots.{after_boot};
ghost use Rattle.check_images.specs.Losing.{is_of_start, is_window, loss_by, loss_in, lost_line, member_at};
ghost use Rattle.check_images.specs.Lost.{AreLost};

use crate::found::{Loss, LostWindow};
use crate::lines::push_line;
use crate::members::members_in;
use boot_rules::Decision;
use image_check::check;
use pico_board::{Cpu, MemBoard, Window};
use sector_pool::SectorPool;
use std::alloc::{AllocError, Global};

/// The first of these windows that begins at this offset.
fn member_at(members: &[Window], start: u32) -> Option<Window>
    ensures { result ≡ member_at members.now start }
{
    for member in members {
        if member.start == start {
            return Some(*member);
        }
    }
    None
}

/// Whether it is this window.
fn is_window(one: Option<Window>, window: Window) -> bool
    ensures { result ≡ is_window one window }
{
    match one {
        Some(one) => one.is_same(window),
        None => false,
    }
}

/// Whether a boot that decides so starts an image of the unit that the window is a member of.
fn is_of_start(decision: &Decision, window: Window) -> bool
    ensures { result ≡ is_of_start decision.now window }
{
    match decision {
        Decision::Start(choice) => {
            choice.image.window.is_same(window) || is_window(choice.other, window)
        }
        Decision::Bootsel(_) => false,
    }
}

/// What becomes of the image of a member of a boot unit, on a board after the boot that decides
/// so.
fn loss_in(
    after: &MemBoard,
    pool: &mut SectorPool,
    cpu: Cpu,
    decision: &Decision,
    member: Window,
) -> Option<Loss>
    requires power { IsTrue (state_of after.now).powered }
    requires lease { HasFree pool.old }
    requires inside { IsInside (length (state_of after.now).content.flash) member }
    ensures exact { result ≡ loss_in (state_of after.now).content cpu decision.now member }
    ensures pool { KeepsOut pool.old pool.new }
{
    if is_of_start(decision, member) {
        return None;
    }
    match check(after, pool, member, cpu, false) {
        Ok(_) => None,
        Err(why) => Some(Loss::Fault(why)),
    }
}

/// What becomes of an image, by the member that begins where its window does.
fn loss_by(
    after: &MemBoard,
    pool: &mut SectorPool,
    cpu: Cpu,
    decision: &Decision,
    member: Option<Window>,
) -> Option<Loss>
    requires power { IsTrue (state_of after.now).powered }
    requires lease { HasFree pool.old }
    requires inside { IfSome member (IsInside (length (state_of after.now).content.flash)) }
    ensures exact { result ≡ loss_by (state_of after.now).content cpu decision.now member }
    ensures pool { KeepsOut pool.old pool.new }
{
    match member {
        Some(member) => loss_in(after, pool, cpu, decision, member),
        None => Some(Loss::NoUnit),
    }
}

/// What is told of a window: that its image is lost. None where it has none, or that is kept.
fn lost_line(
    start: &MemBoard,
    members: &[Window],
    after: &MemBoard,
    pool: &mut SectorPool,
    cpu: Cpu,
    decision: &Decision,
    window: Window,
) -> Option<LostWindow>
    requires start { IsTrue (state_of start.now).powered }
    requires after { IsTrue (state_of after.now).powered }
    requires lease { HasFree pool.old }
    requires inside { IsInside (length (state_of start.now).content.flash) window }
    requires members { All (IsInside (length (state_of after.now).content.flash)) members.now }
    ensures exact { result ≡ lost_line (state_of start.now).content members.now
        (state_of after.now).content cpu decision.now window }
    ensures pool { KeepsOut pool.old pool.new }
{
    if check(start, pool, window, cpu, false).is_err() {
        return None;
    }
    let member = member_at(members, window.start);
    let loss = loss_by(after, pool, cpu, decision, member)?;
    Some(LostWindow { window, loss })
}

/// The lines of these windows before an update, in their order. The members are those of the boot
/// units after it.
fn lost_lines(
    alloc: Global,
    start: &MemBoard,
    members: &[Window],
    after: &MemBoard,
    pool: &mut SectorPool,
    cpu: Cpu,
    decision: &Decision,
    windows: &[Window],
) -> Result<Vec<LostWindow>, AllocError>
    requires start { IsTrue (state_of start.now).powered }
    requires after { IsTrue (state_of after.now).powered }
    requires lease { HasFree pool.old }
    requires inside { All (IsInside (length (state_of start.now).content.flash)) windows.now }
    requires members { All (IsInside (length (state_of after.now).content.flash)) members.now }
    ensures lines { IfOk result (λ lines. lines.items ≡ filter_map
        (lost_line (state_of start.now).content members.now (state_of after.now).content cpu
        decision.now) windows.now) }
    ensures pool { KeepsOut pool.old pool.new }
{
    let mut lines = Vec::new(alloc);
    for window in windows {
        let line = lost_line(start, members, after, pool, cpu, decision, *window);
        push_line(&mut lines, line)?;
    }
    Ok(lines)
}

/// The members of boot units before an update whose images are lost with it, in their order. The
/// update leads from `start` to `end`, and a normal boot on that, which decides so, to `after`. It
/// fails only where memory is out, and the pool keeps what is out.
pub fn lost_windows(
    alloc: Global,
    start: &MemBoard,
    end: &MemBoard,
    after: &MemBoard,
    pool: &mut SectorPool,
    cpu: Cpu,
    decision: &Decision,
) -> Result<Vec<LostWindow>, AllocError>
    requires start { IsTrue (state_of start.now).powered }
    requires end { IsTrue (state_of end.now).powered }
    requires after { IsTrue (state_of after.now).powered }
    requires lease { HasFree pool.old }
    requires chosen { Chosen (state_of end.now).content cpu Normal decision.now }
    requires booted { (state_of after.now).content ≡ after_boot (state_of end.now).content cpu }
    ensures lost { IfOk result (λ lines. AreLost (state_of start.now).content
        (state_of end.now).content cpu lines.items) }
    ensures pool { KeepsOut pool.old pool.new }
{
    let windows = members_in(alloc, start, cpu)?;
    let members = members_in(alloc, end, cpu)?;
    lost_lines(alloc, start, &members, after, pool, cpu, decision, &windows)
}
