//! The power of a board in memory: whether it is on, the armed cut, and what is counted.

ghost use Rattle.std.specs.Prelude.{◌≡◌, ◌+◌, ◌-◌, ◌^◌, ◌<◌, ◌≤◌, min, true, false, All, IfOk, IsTrue, length, None, Some, option_map, vec_capacity};

use std::alloc::{AllocError, Global};

/// The most bytes of a pattern.
const PATTERN: usize = 4096;

/// Whether power is on, the cut that is armed, and what is counted. The room for a pattern is
/// taken when this is made.
#[derive(Drop)]
pub struct Supply {
    pub powered: bool,
    pub cuts: u64,
    pub steps: u64,
    pub is_armed: bool,
    pub left: u32,
    pub within: bool,
    pub pattern: Vec<u8>,
    ghost room: { 4096 ≤ vec_capacity pattern },
    ghost usable: { IsTrue within → 1 ≤ length pattern.items },
    ghost small: { All (λ b. b < 256) pattern.items },
}

impl Supply {
    ghost use Rattle.pico_board.specs.Cuts.{IsPattern, cut_with, nearer};
    ghost use Rattle.pico_board.specs.Supply.{armed_of, due_of};

    /// Power is on, no cut is armed, and nothing is counted yet.
    pub fn new(alloc: Global) -> Result<Supply, AllocError>
        ensures armed { IfOk result (λ s. armed_of s ≡ None) }
        ensures powered { IfOk result (λ s. s.powered ≡ true) }
        ensures cuts { IfOk result (λ s. s.cuts ≡ 0) }
        ensures steps { IfOk result (λ s. s.steps ≡ 0) }
    {
        let pattern = Vec::with_capacity(alloc, PATTERN)?;
        Ok(Supply {
            powered: true,
            cuts: 0,
            steps: 0,
            is_armed: false,
            left: 0,
            within: false,
            pattern,
        })
    }

    /// Whether the cut falls within the next step or before it, where it falls due there.
    pub fn due(&self) -> Option<bool>
        ensures { result ≡ due_of (armed_of self.now) }
    {
        if self.is_armed && self.left == 0 {
            Some(self.within)
        } else {
            None
        }
    }

    /// Counts a completed step, which takes one from the steps that are left.
    pub fn complete(&mut self)
        ensures armed { armed_of self.new ≡ option_map nearer (armed_of self.old) }
        ensures powered { self.new.powered ≡ self.old.powered }
        ensures cuts { self.new.cuts ≡ self.old.cuts }
        ensures steps { self.new.steps ≡ min (self.old.steps + 1) (2 ^ 64 - 1) }
    {
        self.steps = self.steps.saturating_add(1);
        self.left = self.left.saturating_sub(1);
    }

    /// Loses power, and the cut is no longer armed.
    pub fn lose(&mut self)
        ensures armed { armed_of self.new ≡ None }
        ensures powered { self.new.powered ≡ false }
        ensures cuts { self.new.cuts ≡ min (self.old.cuts + 1) (2 ^ 64 - 1) }
        ensures later { self.old.cuts ≤ self.new.cuts }
        ensures steps { self.new.steps ≡ self.old.steps }
    {
        self.cuts = self.cuts.saturating_add(1);
        self.is_armed = false;
        self.powered = false;
    }

    /// Arms a cut in place of a former one. It takes no memory.
    pub fn arm(&mut self, left: u32, within: bool, pattern: &[u8])
        requires { IsPattern within pattern.now }
        ensures armed { armed_of self.new ≡ Some (cut_with left within pattern.now) }
        ensures powered { self.new.powered ≡ self.old.powered }
        ensures cuts { self.new.cuts ≡ self.old.cuts }
        ensures steps { self.new.steps ≡ self.old.steps }
    {
        self.within = false;
        self.pattern.clear();
        match self.pattern.extend_from_slice(pattern) {
            Ok(()) => (),
            Err(_) => unreachable!(),
        }
        self.within = within;
        self.left = left;
        self.is_armed = true;
    }
}
