//! The processor that boots, and the kind of a boot.

ghost use Rattle.std.specs.Prelude.{◌≡◌};
ghost use Rattle.pico_board.specs.Processors.{cpu_of};

/// The processor that an image is for: the RP2350 has Arm Cortex-M33 cores and Hazard3 RISC-V
/// cores (RP2350 Datasheet, chapter 3).
#[derive(Clone, Copy, Debug, PartialEq, Eq)]
pub enum Cpu {
    /// The Arm cores.
    Arm,
    /// The RISC-V cores.
    Riscv,
}

impl Cpu {
    /// The processor that a word names: `arm` or `riscv`, and no other word.
    pub fn named(word: &str) -> Option<Cpu>
        ensures { result ≡ cpu_of word.now }
    {
        match word {
            "arm" => Some(Cpu::Arm),
            "riscv" => Some(Cpu::Riscv),
            _ => None,
        }
    }
}

/// Why the board boots (RP2350 Datasheet, section 5.1, boot types).
#[derive(Clone, Copy, Debug, PartialEq, Eq)]
pub enum BootKind {
    /// A normal boot.
    Normal,
    /// A boot into the BOOTSEL mode.
    Bootsel,
    /// A flash update boot, with the address of the updated region: 0x10000000 and above is in
    /// flash.
    Update(u32),
}
