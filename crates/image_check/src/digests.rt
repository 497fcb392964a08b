//! What is remembered of the digests of windows.

ghost use Rattle.std.specs.Prelude.{◌≡◌, ◌+◌, ◌-◌, ◌^◌, ◌≤◌, length, min};
ghost use Rattle.pico_board.specs.Content.{Content};
ghost use Rattle.pico_board.specs.Steps.{SameOutside};
ghost use Rattle.image_check.specs.declared.digests.Digested.{Digested};
ghost use Rattle.image_check.specs.declared.digests.Digests.{Digests};
ghost use Rattle.image_check.specs.Digests.{answer_of, entries_apart, is_apart, is_of, is_same, Knows, noted, remembered};

use crate::why::Why;
use arrayvec::ArrayVec;
use pico_board::{Cpu, Window};

/// The most windows of which a digest is remembered.
const MOST: usize = 16;

/// Whether the digest of the image of a window is right, for a processor.
#[derive(Clone, Copy, Debug)]
pub struct Digested {
    /// The window.
    pub window: Window,
    /// The processor, since the window's image may be another one for the other processor.
    pub cpu: Cpu,
    /// Whether the digest is that of the covered bytes.
    pub right: bool,
}

impl Default for Digested {
    fn default() -> Self {
        Digested {
            window: Window::default(),
            cpu: Cpu::Arm,
            right: false,
        }
    }
}

/// What is remembered of the digests of at most 16 windows, and how many digests were made.
#[derive(Drop)]
pub struct Digests {
    entries: ArrayVec<Digested, MOST>,
    made: u64,
}

/// Whether the processors are the same.
fn is_same(one: Cpu, other: Cpu) -> bool
    ensures { result ≡ is_same one other }
{
    match (one, other) {
        (Cpu::Arm, Cpu::Arm) | (Cpu::Riscv, Cpu::Riscv) => true,
        (Cpu::Arm, Cpu::Riscv) | (Cpu::Riscv, Cpu::Arm) => false,
    }
}

/// Whether the entry is of this window and for this processor.
fn is_of(window: Window, cpu: Cpu, entry: &Digested) -> bool
    ensures { result ≡ is_of window cpu entry.now }
{
    entry.window.is_same(window) && is_same(entry.cpu, cpu)
}

/// Whether the window shares no byte with the range of `len` bytes from `start` on.
fn is_apart(start: u32, len: u32, window: Window) -> bool
    ensures { result ≡ is_apart start len window }
{
    let end = u64::from(start) + u64::from(len);
    let window_end = u64::from(window.start) + u64::from(window.len);
    window_end <= u64::from(start) || end <= u64::from(window.start)
}

/// The answer of the digest rule, by whether the digest is right.
pub(crate) fn answer_of(right: bool) -> Option<Why>
    ensures { result ≡ answer_of right }
{
    if right { None } else { Some(Why::Digest) }
}

/// What is remembered of a window for a processor.
fn remembered(entries: &[Digested], window: Window, cpu: Cpu) -> Option<bool>
    ensures { result ≡ remembered window cpu entries.now }
{
    for entry in entries {
        if is_of(window, cpu, entry) {
            return Some(entry.right);
        }
    }
    None
}

/// The entries whose windows share no byte with the range.
fn entries_apart(entries: &[Digested], start: u32, len: u32) -> ArrayVec<Digested, MOST>
    requires { length entries.now ≤ 16 }
    ensures { result.items ≡ entries_apart start len entries.now }
{
    let mut left = ArrayVec::new();
    for entry in entries {
        if is_apart(start, len, entry.window) {
            left.push(*entry);
        }
    }
    left
}

impl Digests {
    /// An empty memory, which has made no digest.
    pub fn none() -> Digests
        ensures knows { (c : Content) → Knows result c }
        ensures made { result.made ≡ 0 }
    {
        Digests {
            entries: ArrayVec::new(),
            made: 0,
        }
    }

    /// How many digests were made; the count saturates.
    pub fn made(&self) -> u64
        ensures { result ≡ self.now.made }
    {
        self.made
    }

    /// Whether the digest of the image of a window is right, where that is remembered.
    pub(crate) fn remembered(&self, window: Window, cpu: Cpu) -> Option<bool>
        ensures { result ≡ remembered window cpu self.now.entries.items }
    {
        remembered(self.entries.as_slice(), window, cpu)
    }

    /// Counts a digest that was made, and remembers its answer. Where the memory is full, it is
    /// emptied first. It holds 16 answers, and a table has at most 15 partitions.
    pub(crate) fn note(&mut self, entry: Digested)
        ensures { self.new ≡ noted entry self.old }
    {
        self.made = self.made.saturating_add(1);
        if self.entries.is_full() {
            self.entries.clear();
        }
        self.entries.push(entry);
    }

    /// Forgets each window that shares a byte with a changed range of the flash: `len` bytes from
    /// `start` on. What is left is known of each content that differs in that range alone.
    pub fn forget(&mut self, start: u32, len: u32)
        ensures left { self.new.entries.items ≡ entries_apart start len self.old.entries.items }
        ensures knows { (c d : Content) → Knows self.old c
            → SameOutside start len c.flash d.flash → Knows self.new d }
        ensures made { self.new.made ≡ self.old.made }
    {
        self.entries = entries_apart(self.entries.as_slice(), start, len);
    }
}
