//! What a recorder does with the steps of its board.

ghost use Rattle.std.specs.Prelude.{◌≡◌, ◌+◌, ◌^◌, ◌<◌, ◌≤◌, ◌&&◌, nat_le, List, [], ◌∷◌, ◌++◌, IfOk, vec_capacity};
ghost use Rattle.pico_board.specs.declared.Step.{Step as Done};
ghost use Rattle.boot_session.specs.Slots.{is_confined, is_in_slot, slot_among, slot_in_unit};
ghost use Rattle.boot_session.specs.Recordings.{HasRecorded, next_outside, next_slot, next_steps};

use crate::recorder::{Recorder, STEP_LIMIT};
use arrayvec::ArrayVec;
use pico_board::{Bench, Board, PowerLost, Step, Window};
use slot_choice::SlotUnit;
use std::alloc::{AllocError, Global};

/// The bytes of a sector, the unit of an erase.
const SECTOR: u64 = pico_board::SECTOR as u64;

/// The bytes of a page, the unit of a program.
const PAGE: u64 = pico_board::PAGE as u64;

/// Whether the range of `size` bytes at `at` lies in the window.
fn holds(window: Window, at: u64, size: u64) -> bool
    requires near { at + size < 2 ^ 64 }
    ensures { result ≡ (nat_le window.start at && nat_le (at + size) (window.start + window.len)) }
{
    let start = u64::from(window.start);
    start <= at && at + size <= start + u64::from(window.len)
}

/// Whether the step is an erase or a program whose range lies in the window.
pub fn is_confined(window: Window, step: &Step) -> bool
    ensures { result ≡ is_confined window step.now }
{
    match step {
        Step::Erase(sector) => holds(window, SECTOR * u64::from(*sector), SECTOR),
        Step::Program(page, _) => holds(window, PAGE * u64::from(*page), PAGE),
        Step::Raise(_, _) => false,
    }
}

/// The member of a unit in which the step lies, where the unit is a pair.
fn slot_in_unit(unit: &SlotUnit, step: &Step) -> Option<Window>
    ensures { result ≡ slot_in_unit unit.now.a unit.now.b step.now }
{
    match unit.b {
        Some(second) => {
            if is_confined(unit.a, step) {
                Some(unit.a)
            } else if is_confined(second, step) {
                Some(second)
            } else {
                None
            }
        }
        None => None,
    }
}

/// The member of a pair in which the step lies.
pub fn slot_among(units: &[SlotUnit], step: &Step) -> Option<Window>
    ensures { result ≡ slot_among units.now step.now }
{
    for unit in units {
        if let Some(slot) = slot_in_unit(unit, step) {
            return Some(slot);
        }
    }
    None
}

/// Whether the step lies in the slot, where there is one.
fn is_in_slot(slot: Option<Window>, step: &Step) -> bool
    ensures { result ≡ is_in_slot slot step.now }
{
    match slot {
        Some(window) => is_confined(window, step),
        None => false,
    }
}

/// The slot behind a step of this number: that of the first step stays.
fn next_slot(slot: Option<Window>, count: u32, units: &[SlotUnit], step: &Step) -> Option<Window>
    ensures { result ≡ next_slot slot count units.now step.now }
{
    if count == 0 {
        slot_among(units, step)
    } else {
        slot
    }
}

/// The first step that does not lie in the slot, behind a step of this number.
fn next_outside(outside: Option<u32>, count: u32, slot: Option<Window>, step: &Step) -> Option<u32>
    ensures { result ≡ next_outside outside count slot step.now }
{
    match outside {
        Some(first) => Some(first),
        None => {
            if is_in_slot(slot, step) {
                None
            } else {
                Some(count)
            }
        }
    }
}

/// Adds a step to the first ones, where there are fewer than may be kept.
fn keep_step(steps: &mut Vec<Step>, step: &Step)
    requires room { 262145 ≤ vec_capacity steps.old }
    ensures kept { steps.new.items ≡ next_steps steps.old.items step.now }
    ensures room { 262145 ≤ vec_capacity steps.new }
{
    if steps.len() <= STEP_LIMIT {
        match steps.push(*step) {
            Ok(()) => {}
            Err(_) => unreachable!(),
        }
    }
}

impl<B: Bench + Drop> Recorder<B> {
    /// A recorder that has recorded nothing, round a bench whose flash has these boot units.
    pub fn make(
        alloc: Global,
        bench: B,
        units: ArrayVec<SlotUnit, 15>,
    ) -> Result<Recorder<B>, AllocError>
        ensures bench { IfOk result (λ r. r.bench ≡ bench) }
        ensures units { IfOk result (λ r. r.units ≡ units) }
        ensures none { IfOk result (λ r. HasRecorded r []) }
    {
        let steps = Vec::with_capacity(alloc, STEP_LIMIT + 1)?;
        Ok(Recorder {
            bench,
            units,
            steps,
            count: 0,
            slot: None,
            outside: None,
        })
    }

    /// Records a completed step.
    fn note(&mut self, step: &Step)
        ensures bench { self.new.bench ≡ self.old.bench }
        ensures units { self.new.units ≡ self.old.units }
        ensures recorded { (h : List Done) → HasRecorded self.old h
            → HasRecorded self.new (h ++ step.now ∷ []) }
    {
        let slot = next_slot(self.slot, self.count, self.units.as_slice(), step);
        let outside = next_outside(self.outside, self.count, slot, step);
        keep_step(&mut self.steps, step);
        self.slot = slot;
        self.outside = outside;
        self.count = self.count.saturating_add(1);
    }
}

impl<B: Bench + Drop> Board for Recorder<B> {
    ghost use Rattle.boot_session.specs.Recordings.{IsHistoryOf};

    ghost state = { λ r. B.state r.bench };

    ghost history = { IsHistoryOf B.state };

    fn flash_len(&self) -> u32 {
        self.bench.flash_len()
    }

    fn powered(&self) -> bool {
        self.bench.powered()
    }

    fn read(&self, at: u32, into: &mut [u8]) {
        self.bench.read(at, into);
    }

    fn otp_read(&self, row: u16) -> u32 {
        self.bench.otp_read(row)
    }

    fn erase(&mut self, sector: u32) -> Result<(), PowerLost> {
        self.bench.erase(sector)?;
        self.note(&Step::Erase(sector));
        Ok(())
    }

    fn program(&mut self, page: u32, bytes: &[u8; 256]) -> Result<(), PowerLost> {
        self.bench.program(page, bytes)?;
        self.note(&Step::Program(page, *bytes));
        Ok(())
    }

    fn raise(&mut self, row: u16, bits: u32) -> Result<(), PowerLost> {
        self.bench.raise(row, bits)?;
        self.note(&Step::Raise(row, bits));
        Ok(())
    }

    ghost is_content = { λ r. B.is_content r.bench };
}

impl<B: Bench + Drop> Bench for Recorder<B> {
    fn arm_cut(&mut self, after: u32, within: bool, pattern: &[u8]) {
        self.bench.arm_cut(after, within, pattern);
    }

    fn power_on(&mut self) {
        self.bench.power_on();
    }
}
