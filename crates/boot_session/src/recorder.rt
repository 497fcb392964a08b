//! A bench that records the steps of its board.

ghost use Rattle.std.specs.Prelude.{◌≤◌, vec_capacity};

use arrayvec::ArrayVec;
use pico_board::{Step, Window};
use slot_choice::SlotUnit;

/// The most steps of a session that is swept, and of a trace whose cuts are judged.
pub const STEP_LIMIT: usize = 262_144;

/// A bench round another one, which records the steps that this one completes. It keeps the first
/// 262,145 of them with their page bytes, one more than are swept, and how many there are. It keeps
/// the member of a pair in which the first one lies, and the first one that does not lie there. Its
/// room is taken when it is made, so that no step needs memory.
#[derive(Drop)]
pub struct Recorder<B> {
    /// The bench that does the steps.
    pub bench: B,
    /// The boot units of the bench's flash.
    pub units: ArrayVec<SlotUnit, 15>,
    /// The first steps.
    pub steps: Vec<Step>,
    /// The number of steps, which saturates.
    pub count: u32,
    /// The member of a pair in which the first step lies.
    pub slot: Option<Window>,
    /// The number of the first step that does not lie there.
    pub outside: Option<u32>,
    ghost room: { 262145 ≤ vec_capacity steps },
}
