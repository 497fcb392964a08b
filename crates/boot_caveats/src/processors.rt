//! Which images that a boot comes to are for the other processor.

ghost use Rattle.std.specs.Prelude.{◌≡◌, ◌+◌, ◌*◌, ◌<◌, ◌≤◌, ◌++◌, IfSome, IsTrue, OnOk, length, map, option_to_list};
ghost use Rattle.std.specs.List.{filter_map};
ghost use Rattle.sector_pool.specs.Keeping.{KeepsOut};
ghost use Rattle.sector_pool.specs.Pool.{HasFree};
ghost use Rattle.image_check.specs.Digests.{Knows};
ghost use Rattle.boot_rules.specs.Chosen.{is_member};
ghost use Rattle.boot_rules.specs.Picking.{AreInside, IsInside};
ghost use Rattle.slot_caveats.specs.declared.caveat.Caveat.TheVariants.{OtherProcessor};
ghost use Rattle.boot_caveats.specs.ProcessorCaveats.{looked_members, members_of, other_among, other_processors, other_start, other_window, other_windows, second_looked, updated_in};
ghost use Rattle.boot_caveats.specs.Reads.{AreLooksInside};

use crate::choices::{lacks_image, other_cpu, started_window};
use crate::images::has_window;
use arrayvec::ArrayVec;
use boot_reasons::UnitReport;
use boot_rules::{Decision, Started, boot_units_in, decide_by, order_of};
use image_check::{Digests, Why, check_by};
use pico_board::{Board, BootKind, Cpu, Window};
use sector_pool::SectorPool;
use slot_caveats::{Caveat, add};
use slot_choice::Member;
use std::alloc::AllocError;

/// Whether a member is the updated one.
fn is_member(updated: Option<Member>, member: Member) -> bool
    ensures { result ≡ is_member updated member }
{
    match (updated, member) {
        (Some(Member::A), Member::A) | (Some(Member::B), Member::B) => true,
        (Some(Member::A), Member::B) | (Some(Member::B), Member::A) | (None, _) => false,
    }
}

/// The updated member of a boot. The units are looked up for an update alone.
fn updated_in<B: Board>(board: &B, cpu: Cpu, kind: BootKind) -> Option<Member>
    requires power { IsTrue (B.state board.now).powered }
    ensures { result ≡ updated_in (B.state board.now).content cpu kind }
{
    match kind {
        BootKind::Update(_) => {
            let mut units = boot_units_in(board, cpu);
            order_of(&mut units, kind)
        }
        BootKind::Normal | BootKind::Bootsel => None,
    }
}

/// The window of a member without an image that counts, where it has one for the other processor.
fn other_window<B: Board>(
    board: &B,
    pool: &mut SectorPool,
    digests: &mut Digests,
    cpu: Cpu,
    window: Window,
    image: &Result<Started, Why>,
    trial_ok: bool,
) -> Option<Window>
    requires power { IsTrue (B.state board.now).powered }
    requires free { HasFree pool.old }
    requires knows { Knows digests.old (B.state board.now).content }
    requires inside { IsInside (length (B.state board.now).content.flash) window }
    ensures exact { result ≡ other_window (B.state board.now).content cpu
        (record { window = window; image = image.now; trial = trial_ok }) }
    ensures knows { Knows digests.new (B.state board.now).content }
    ensures kept { KeepsOut pool.old pool.new }
{
    if image.is_err() && check_by(board, pool, digests, window, other_cpu(cpu), trial_ok).is_ok() {
        Some(window)
    } else {
        None
    }
}

/// The same of a second member, where there is one.
fn second_other<B: Board>(
    board: &B,
    pool: &mut SectorPool,
    digests: &mut Digests,
    cpu: Cpu,
    window: Option<Window>,
    image: &Option<Result<Started, Why>>,
    trial_ok: bool,
) -> Option<Window>
    requires power { IsTrue (B.state board.now).powered }
    requires free { HasFree pool.old }
    requires knows { Knows digests.old (B.state board.now).content }
    requires inside { IfSome window (IsInside (length (B.state board.now).content.flash)) }
    ensures exact { option_to_list result
        ≡ filter_map (other_window (B.state board.now).content cpu)
        (second_looked trial_ok window image.now) }
    ensures knows { Knows digests.new (B.state board.now).content }
    ensures kept { KeepsOut pool.old pool.new }
{
    match (window, image) {
        (Some(window), Some(image)) => other_window(
            board, pool, digests, cpu, window, image, trial_ok,
        ),
        (Some(_), None) | (None, _) => None,
    }
}

/// Adds a window to a list, where there is one.
fn push_some(windows: &mut ArrayVec<Window, 30>, window: Option<Window>)
    requires { length windows.old.items < 30 }
    ensures value { windows.new.items ≡ windows.old.items ++ option_to_list window }
    ensures most { length windows.new.items ≤ length windows.old.items + 1 }
{
    if let Some(window) = window {
        windows.push(window);
    }
}

/// Adds the windows of a unit's members that are such.
fn push_others<B: Board>(
    board: &B,
    pool: &mut SectorPool,
    digests: &mut Digests,
    cpu: Cpu,
    look: &UnitReport,
    updated: Option<Member>,
    windows: &mut ArrayVec<Window, 30>,
)
    requires power { IsTrue (B.state board.now).powered }
    requires free { HasFree pool.old }
    requires knows { Knows digests.old (B.state board.now).content }
    requires inside { AreInside (length (B.state board.now).content.flash) look.now.unit }
    requires room { length windows.old.items ≤ 28 }
    ensures value { windows.new.items ≡ windows.old.items
        ++ filter_map (other_window (B.state board.now).content cpu)
        (members_of look.now updated) }
    ensures most { length windows.new.items ≤ length windows.old.items + 2 }
    ensures knows { Knows digests.new (B.state board.now).content }
    ensures kept { KeepsOut pool.old pool.new }
{
    let first = is_member(updated, Member::A);
    let second = is_member(updated, Member::B);
    let a = other_window(board, pool, digests, cpu, look.unit.a, &look.first, first);
    let b = second_other(board, pool, digests, cpu, look.unit.b, &look.second, second);
    push_some(windows, a);
    push_some(windows, b);
}

/// The windows of the members that are looked at, without an image that counts and with one for
/// the other processor, in the order of looking.
fn other_windows<B: Board>(
    board: &B,
    pool: &mut SectorPool,
    digests: &mut Digests,
    cpu: Cpu,
    looks: &[UnitReport],
    updated: Option<Member>,
) -> ArrayVec<Window, 30>
    requires power { IsTrue (B.state board.now).powered }
    requires free { HasFree pool.old }
    requires knows { Knows digests.old (B.state board.now).content }
    requires few { length looks.now ≤ 15 }
    requires inside { AreLooksInside (length (B.state board.now).content.flash) looks.now }
    ensures value { result.items ≡ other_windows (B.state board.now).content cpu
        (looked_members looks.now updated) }
    ensures knows { Knows digests.new (B.state board.now).content }
    ensures kept { KeepsOut pool.old pool.new }
{
    let mut windows = ArrayVec::new();
    let mut member = updated;
    for look in looks {
        push_others(board, pool, digests, cpu, look, member, &mut windows);
        member = None;
    }
    windows
}

/// A window that is none of these.
fn other_among(windows: &[Window], window: Option<Window>) -> Option<Caveat>
    ensures { result ≡ other_among windows.now window }
{
    let window = window?;
    if has_window(windows, window) {
        None
    } else {
        Some(Caveat::OtherProcessor(window))
    }
}

/// No image starts, and for the other processor one would, in a window that is none of these.
fn other_start<B: Board>(
    board: &B,
    pool: &mut SectorPool,
    digests: &mut Digests,
    cpu: Cpu,
    kind: BootKind,
    decision: &Decision,
    windows: &[Window],
) -> Option<Caveat>
    requires power { IsTrue (B.state board.now).powered }
    requires free { HasFree pool.old }
    requires knows { Knows digests.old (B.state board.now).content }
    ensures exact { result
        ≡ other_start (B.state board.now).content cpu kind decision.now windows.now }
    ensures knows { Knows digests.new (B.state board.now).content }
    ensures kept { KeepsOut pool.old pool.new }
{
    if !lacks_image(decision) {
        return None;
    }
    let other = decide_by(board, pool, digests, other_cpu(cpu), kind);
    other_among(windows, started_window(&other))
}

/// Adds each of these windows.
fn add_windows(windows: &[Window], list: &mut Vec<Caveat>) -> Result<(), AllocError>
    ensures { OnOk result
        (list.new.items ≡ list.old.items ++ map OtherProcessor windows.now) }
{
    for window in windows {
        list.push(Caveat::OtherProcessor(*window))?;
    }
    Ok(())
}

/// Adds the windows with an image for the other processor that a boot comes to: those of members
/// without one that counts, and where no image starts that of the decision for the other one.
pub(crate) fn add_other_processors<B: Board>(
    board: &B,
    pool: &mut SectorPool,
    digests: &mut Digests,
    cpu: Cpu,
    kind: BootKind,
    decision: &Decision,
    looks: &[UnitReport],
    list: &mut Vec<Caveat>,
) -> Result<(), AllocError>
    requires power { IsTrue (B.state board.now).powered }
    requires free { HasFree pool.old }
    requires knows { Knows digests.old (B.state board.now).content }
    requires few { length looks.now ≤ 15 }
    requires inside { AreLooksInside (length (B.state board.now).content.flash) looks.now }
    ensures exact { OnOk result (list.new.items ≡ list.old.items
        ++ other_processors (B.state board.now).content cpu kind decision.now
        (looked_members looks.now (updated_in (B.state board.now).content cpu kind))) }
    ensures knows { Knows digests.new (B.state board.now).content }
    ensures kept { KeepsOut pool.old pool.new }
{
    let updated = updated_in(board, cpu, kind);
    let windows = other_windows(board, pool, digests, cpu, looks, updated);
    let windows = windows.as_slice();
    add_windows(windows, list)?;
    add(
        list,
        other_start(board, pool, digests, cpu, kind, decision, windows),
    )
}
