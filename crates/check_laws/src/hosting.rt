//! Whether a script is a host's, by its events and by what was noted of each.

ghost use Rattle.std.specs.Prelude.{◌≡◌, None, Some, drop, false, true};
ghost use Rattle.boot_script.specs.Events.{event_from};
ghost use Rattle.boot_script.specs.Scripts.{script_events};
ghost use Rattle.boot_machine.specs.Serving.{is_hosted};
ghost use Rattle.check_laws.specs.Hosting.{are_hosts, ends, fits, hosted_events, is_noted};
ghost use Rattle.check_laws.specs.Hosts.{is_own};

use boot_script::{Event, Events, Script};
use boot_tape::{Note, is_boot};
use pico_board::BootKind;

/// Whether the event is for a host.
fn is_hosted(event: &Event<'_>) -> bool
    ensures { result ≡ is_hosted (event_from event.now) }
{
    match event {
        Event::Command(_, _) | Event::Uf2(_) => true,
        _ => false,
    }
}

/// Whether the event is a normal reset, or a buy.
fn is_own(event: &Event<'_>) -> bool
    ensures { result ≡ is_own (event_from event.now) }
{
    match event {
        Event::Reset(BootKind::Normal) | Event::Buy => true,
        _ => false,
    }
}

/// Whether a host's script may go on with this event, where the host's events are over or not.
fn fits(over: bool, event: &Event<'_>) -> bool
    ensures { result ≡ fits over (event_from event.now) }
{
    is_own(event) || (!over && is_hosted(event))
}

/// Whether the host's events are over behind this one: it is none of them, or asks for a boot.
fn ends(event: &Event<'_>, note: &Note) -> bool
    ensures { result ≡ ends (event_from event.now) note.now }
{
    !is_hosted(event) || is_boot(&note.behind)
}

/// Whether these are the events of a host, and then normal resets and buys.
fn are_hosts(events: Events<'_>, notes: &[Note]) -> bool
    ensures { result ≡ are_hosts false events.entry notes.now }
{
    let mut left = events;
    let mut over = false;
    for note in notes {
        match left.next() {
            Some(event) => {
                if !fits(over, &event) {
                    return false;
                }
                over = ends(&event, note);
            }
            None => return true,
        }
    }
    true
}

/// Whether the first events are that power comes back, and a reset to BOOTSEL.
fn begins(events: &mut Events<'_>) -> bool
    ensures begun { result ≡ true → hosted_events events.old ≡ Some events.new }
    ensures other { result ≡ false → hosted_events events.old ≡ None }
{
    match events.next() {
        Some(Event::PowerOn) => match events.next() {
            Some(Event::Reset(BootKind::Bootsel)) => true,
            _ => false,
        },
        _ => false,
    }
}

/// What was noted of the events behind the first two.
fn behind_two(notes: &[Note]) -> &[Note]
    ensures { result.now ≡ drop 2 notes.now }
{
    &notes[notes.len().min(2)..]
}

/// Whether a script is a host's, by what was noted of its events.
pub(crate) fn is_hosts(script: &Script<'_>, notes: &[Note]) -> bool
    ensures { result ≡ is_noted (hosted_events (script_events script.now.bytes.now))
        (drop 2 notes.now) }
{
    let mut events = script.events();
    if !begins(&mut events) {
        return false;
    }
    are_hosts(events, behind_two(notes))
}
