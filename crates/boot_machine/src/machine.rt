//! The machine: a board that boots, serves a host in BOOTSEL, runs an image, and loses its power.
//! What comes of an event is a value, of which `step` and `serve` write the line.

ghost use Rattle.std.specs.Prelude.{◌≡◌, ◌≤◌, IsTrue, None, length, true};
ghost use Rattle.sector_pool.specs.Pool.{free_count};
ghost use Rattle.boot_script.specs.Events.{IsWritableEvent, event_from};
ghost use Rattle.boot_machine.specs.Boots.{entered};
ghost use Rattle.boot_machine.specs.Machines.{MachineView as Model};
ghost use Rattle.boot_machine.specs.Serving.{is_hosted, served_event};
ghost use Rattle.boot_machine.specs.Standing.{IsStep, IsToldService, IsToldStep, Serves, Stands, StandsAt};
ghost use Rattle.boot_machine.specs.declared.state.State.TheVariants.{Off as POWERLESS, Bootsel as SERVING};

use crate::entering::enter_bootsel;
use crate::parts::Parts;
use crate::served::Served;
use crate::serving::serve;
use crate::state::State;
use crate::stepping::step;
use crate::watched::Watched;
use arrayvec::ArrayString;
use boot_script::Event;
use pico_board::{Bench, BootKind, Cpu};
use ram_start::Ram;
use sector_pool::SectorPool;
use std::marker::Model;
use text_lines::{EventOutcome, set_outcome};
use uf2_place::Download;

/// A board with what it boots and serves a host with.
#[derive(Drop)]
pub struct Machine<B: Bench> {
    parts: Parts<B>,
}

impl<B: Bench> Model for Machine<B> {
    ghost use Rattle.boot_machine.specs.declared.parts.Parts.{Parts};
    ghost use Rattle.boot_machine.specs.Standing.{IsSteady};

    ghost Value = { Parts B };

    ghost view = { λ machine. machine.parts };

    ghost invariant = { λ machine. IsSteady B.state machine.parts };
}

impl<B: Bench> Machine<B> {
    /// A machine without power. The pool has two free sectors, and no download is current.
    pub fn new(board: B, pool: SectorPool, download: Download, ram: Ram, cpu: Cpu) -> Machine<B>
        requires leases { 2 ≤ free_count pool }
        requires none { download.current ≡ None }
        ensures board { result.board ≡ board }
        ensures cpu { result.cpu ≡ cpu }
        ensures off { result.state ≡ POWERLESS }
    {
        Machine {
            parts: Parts {
                board: Watched::new(board),
                pool,
                download,
                ram,
                cpu,
                state: State::Off,
                membership: None,
                found: None,
            },
        }
    }

    /// A machine that has just entered BOOTSEL, with no step done: its table is that of the
    /// content, and its SRAM is 0. The board is powered, the pool has two free sectors, and no
    /// download is current.
    pub fn bootsel(board: B, pool: SectorPool, download: Download, ram: Ram, cpu: Cpu) -> Machine<B>
        requires power { IsTrue (B.state board).powered }
        requires leases { 2 ≤ free_count pool }
        requires none { download.current ≡ None }
        ensures board { result.board ≡ board }
        ensures cpu { result.cpu ≡ cpu }
        ensures entered { StandsAt result (entered (B.state board).content) }
    {
        let mut parts = Parts {
            board: Watched::new(board),
            pool,
            download,
            ram,
            cpu,
            state: State::Off,
            membership: None,
            found: None,
        };
        enter_bootsel(&mut parts);
        Machine { parts }
    }

    /// What the machine is doing.
    pub fn state(&self) -> &State
        ensures { result.now ≡ self.now.state }
    {
        &self.parts.state
    }

    /// The board.
    pub fn board(&self) -> &B
        ensures { result.now ≡ self.now.board }
    {
        self.parts.board.board()
    }

    /// The board, out of the machine.
    pub fn into_board(self) -> B
        ensures { result ≡ self.board }
    {
        self.parts.board.into_board()
    }

    /// Serves a command or a UF2 block in BOOTSEL, but for the boot that it may ask for, which is
    /// answered with what came of the event. None comes exactly where it asks for no boot from
    /// flash, or power was lost; an image in RAM is started here. (RP2350 Datasheet, chapter 5,
    /// Bootrom; the outcomes are this project's own.)
    pub fn answer(&mut self, event: &Event<'_>) -> Served
        requires bootsel { self.old.state ≡ SERVING }
        requires hosted { is_hosted (event_from event.now) ≡ true }
        requires writable { IsWritableEvent (event_from event.now) }
        ensures serves { Serves B.state B.history self.old
            (λ c cpu host. served_event c cpu host (event_from event.now)) result.boot self.new
            result.outcome }
    {
        serve(&mut self.parts, event)
    }

    /// What `answer` does. The line becomes that of its outcome, and the boot is answered.
    pub fn serve(&mut self, event: &Event<'_>, line: &mut ArrayString<320>) -> Option<BootKind>
        requires bootsel { self.old.state ≡ SERVING }
        requires hosted { is_hosted (event_from event.now) ≡ true }
        requires writable { IsWritableEvent (event_from event.now) }
        ensures serves { IsToldService B.state B.history self.old
            (λ c cpu host. served_event c cpu host (event_from event.now)) result self.new
            line.new.bytes }
    {
        let served = self.answer(event);
        set_outcome(line, &served.outcome);
        served.boot
    }

    /// What an event does, by the table of the machine, and its outcome. For each machine m for
    /// which it stands, it then stands for one to which the event takes m. Lost power is the only
    /// thing that stops a step; it takes no memory. (RP2350 Datasheet, chapter 5, Bootrom; the
    /// profile and the outcomes are this project's own.)
    pub fn advance(&mut self, event: &Event<'_>) -> EventOutcome
        requires { IsWritableEvent (event_from event.now) }
        ensures { (m : Model) → Stands B.state self.old m
            → IsStep B.state B.history self.old m (event_from event.now) self.new result }
    {
        step(&mut self.parts, event)
    }

    /// What `advance` does. The line becomes that of its outcome.
    pub fn step(&mut self, event: &Event<'_>, line: &mut ArrayString<320>)
        requires { IsWritableEvent (event_from event.now) }
        ensures { (m : Model) → Stands B.state self.old m
            → IsToldStep B.state B.history self.old m (event_from event.now) self.new
            line.new.bytes }
    {
        let outcome = self.advance(event);
        set_outcome(line, &outcome);
    }
}
