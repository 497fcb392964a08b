//! Events, on the parts of a machine in any state.

ghost use Rattle.std.specs.Prelude.{◌≡◌, ◌≤◌, None, Some, IfSome, length, true, IsTrue};
ghost use Rattle.pico_board.specs.Cuts.{IsPattern};
ghost use Rattle.uf2_place.specs.Downloads.{lease_of};
ghost use Rattle.slot_choice.specs.declared.choice.Choice.{Choice};
ghost use Rattle.boot_machine.specs.Serving.{is_hosted};
ghost use Rattle.boot_script.specs.Events.{EventView, IsWritableEvent, event_from};
ghost use Rattle.boot_machine.specs.Machines.{FromFlash, MachineView};
ghost use Rattle.boot_machine.specs.Moves.{bought_choice, buy_effect, reset};
ghost use Rattle.boot_machine.specs.Standing.{Advances, Comes, HasRoom, IsHeldChoice, IsRunning, IsStep, IsSteady, Stands, is_running, powerless, membership_of};
ghost use Rattle.boot_machine.specs.declared.state.State.TheVariants.{Off as POWERLESS, Bootsel as SERVING};

use crate::entering::{boot_into, lose, run};
use crate::parts::Parts;
use crate::serving::serve;
use crate::state::State;
use boot_rules::Choice;
use boot_script::Event;
use pico_board::{Bench, Board, BootKind, PowerLost};
use std::mem;
use text_lines::EventOutcome;

/// A boot of this kind.
fn reset<B: Board>(parts: &mut Parts<B>, kind: BootKind) -> EventOutcome
    requires power { IsTrue (B.state parts.old.board).powered }
    requires room { HasRoom parts.old.pool (lease_of parts.old.download.current) }
    ensures comes { Comes B.state B.history parts.old
        (reset (B.state parts.old.board).content parts.old.cpu kind) parts.new result }
    ensures steady { IsSteady B.state parts.new }
{
    boot_into(parts, kind, None)
}

/// An event without power: it comes back, and a normal boot is made.
fn step_off<B: Bench>(parts: &mut Parts<B>, event: &Event<'_>) -> EventOutcome
    requires steady { IsSteady B.state parts.old }
    requires off { parts.old.state ≡ POWERLESS }
    ensures advances { Advances B.state B.history parts.old (event_from event.now) parts.new
        result }
    ensures steady { IsSteady B.state parts.new }
{
    match event {
        Event::PowerOn => {
            parts.board.power_on();
            reset(parts, BootKind::Normal)
        }
        _ => EventOutcome::Off,
    }
}

/// Serves an event of a host, and makes the boot that it asks for.
fn serve_and_boot<B: Board>(parts: &mut Parts<B>, event: &Event<'_>) -> EventOutcome
    requires steady { IsSteady B.state parts.old }
    requires bootsel { parts.old.state ≡ SERVING }
    requires hosted { is_hosted (event_from event.now) ≡ true }
    ensures advances { Advances B.state B.history parts.old (event_from event.now) parts.new
        result }
    ensures steady { IsSteady B.state parts.new }
{
    let served = serve(parts, event);
    match served.boot {
        Some(kind) => boot_into(parts, kind, Some(served.outcome)),
        None => served.outcome,
    }
}

/// An event in BOOTSEL.
fn step_bootsel<B: Board>(parts: &mut Parts<B>, event: &Event<'_>) -> EventOutcome
    requires steady { IsSteady B.state parts.old }
    requires bootsel { parts.old.state ≡ SERVING }
    ensures advances { Advances B.state B.history parts.old (event_from event.now) parts.new
        result }
    ensures steady { IsSteady B.state parts.new }
{
    match event {
        Event::Command(_, _) | Event::Uf2(_) => serve_and_boot(parts, event),
        Event::Reset(kind) => reset(parts, *kind),
        _ => EventOutcome::Ignored,
    }
}

/// The choice with its image bought.
fn bought_choice(choice: Choice) -> Choice
    ensures { result ≡ bought_choice choice }
{
    let mut choice = choice;
    choice.image.trial = false;
    choice
}

/// The image of a choice buys itself, where it is a trial, and runs on.
fn buy_choice<B: Board>(parts: &mut Parts<B>, choice: Choice) -> EventOutcome
    requires power { IsTrue (B.state parts.old.board).powered }
    requires room { HasRoom parts.old.pool None }
    requires none { parts.old.download.current ≡ None }
    requires held { IsHeldChoice (B.state parts.old.board).content parts.old.cpu choice }
    ensures comes { Comes B.state B.history parts.old
        (buy_effect (B.state parts.old.board).content parts.old.cpu (FromFlash choice))
        parts.new result }
    ensures steady { IsSteady B.state parts.new }
{
    if !choice.image.trial {
        run(parts, choice);
        return EventOutcome::NothingToBuy;
    }
    match parts.board.buy(&mut parts.pool, parts.cpu, &choice) {
        Ok(()) => {
            run(parts, bought_choice(choice));
            EventOutcome::Bought
        }
        Err(PowerLost) => lose(parts),
    }
}

/// Takes the choice that runs out of the parts, where an image from flash runs.
fn take_choice<B: Board>(parts: &mut Parts<B>) -> Option<Choice>
    ensures taken { (choice : Choice)
        → IsRunning parts.old choice.image (Some (membership_of choice))
        → result ≡ Some choice }
    ensures some { IfSome result (λ choice.
        IsRunning parts.old choice.image (Some (membership_of choice))
        × (parts.new ≡ powerless parts.old)) }
    ensures none { result ≡ None → parts.new ≡ parts.old }
{
    let membership = match parts.membership {
        Some(membership) => membership,
        None => return None,
    };
    match mem::replace(&mut parts.state, State::Off) {
        State::Running(image) => Some(Choice {
            image,
            member: membership.member,
            other: membership.other,
            updated: membership.updated,
        }),
        other => {
            parts.state = other;
            None
        }
    }
}

/// A buy of the running image.
fn step_buy<B: Board>(parts: &mut Parts<B>) -> EventOutcome
    requires steady { IsSteady B.state parts.old }
    requires running { is_running parts.old.state ≡ true }
    ensures advances { Advances B.state B.history parts.old EventView.Buy parts.new result }
    ensures steady { IsSteady B.state parts.new }
{
    match take_choice(parts) {
        Some(choice) => buy_choice(parts, choice),
        None => EventOutcome::NothingToBuy,
    }
}

/// An event while an image runs.
fn step_running<B: Board>(parts: &mut Parts<B>, event: &Event<'_>) -> EventOutcome
    requires steady { IsSteady B.state parts.old }
    requires running { is_running parts.old.state ≡ true }
    ensures advances { Advances B.state B.history parts.old (event_from event.now) parts.new
        result }
    ensures steady { IsSteady B.state parts.new }
{
    match event {
        Event::Reset(kind) => reset(parts, *kind),
        Event::Buy => step_buy(parts),
        _ => EventOutcome::Ignored,
    }
}

/// An event by the state.
fn advance<B: Bench>(parts: &mut Parts<B>, event: &Event<'_>) -> EventOutcome
    requires steady { IsSteady B.state parts.old }
    ensures advances { Advances B.state B.history parts.old (event_from event.now) parts.new
        result }
    ensures steady { IsSteady B.state parts.new }
{
    match &parts.state {
        State::Off => step_off(parts, event),
        State::Bootsel => step_bootsel(parts, event),
        State::Running(_) => step_running(parts, event),
    }
}

/// Arms a cut.
fn arm<B: Bench>(parts: &mut Parts<B>, left: u32, within: bool, pattern: &[u8]) -> EventOutcome
    requires steady { IsSteady B.state parts.old }
    requires pattern { IsPattern within pattern.now }
    ensures step { (m : MachineView) → Stands B.state parts.old m
        → IsStep B.state B.history parts.old m
        (EventView.Cut left within pattern.now) parts.new result }
    ensures steady { IsSteady B.state parts.new }
{
    parts.board.arm_cut(left, within, pattern);
    EventOutcome::CutArmed
}

/// An event.
pub fn step<B: Bench>(parts: &mut Parts<B>, event: &Event<'_>) -> EventOutcome
    requires steady { IsSteady B.state parts.old }
    requires writable { IsWritableEvent (event_from event.now) }
    ensures step { (m : MachineView) → Stands B.state parts.old m
        → IsStep B.state B.history parts.old m
        (event_from event.now) parts.new result }
    ensures steady { IsSteady B.state parts.new }
{
    match event {
        Event::Cut(left, within, pattern) => arm(parts, *left, *within, pattern),
        Event::End => EventOutcome::Ended,
        _ => advance(parts, event),
    }
}
