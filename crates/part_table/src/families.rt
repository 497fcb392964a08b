//! The numbers and the names of the UF2 families that a flag word has bits for (picotool's
//! documentation, UF2 families).

ghost use Rattle.std.specs.Prelude.{◌≡◌};
ghost use Rattle.part_table.specs.Families.{family_of};

/// The family rp2040, the first of the six.
pub const RP2040_FAMILY: u32 = 0xe48b_ff56;
/// The family of blocks at absolute addresses.
pub const ABSOLUTE_FAMILY: u32 = 0xe48b_ff57;
/// The family of data.
pub const DATA_FAMILY: u32 = 0xe48b_ff58;
/// The family rp2350-arm-s, of secure executables for Arm.
pub const ARM_S_FAMILY: u32 = 0xe48b_ff59;
/// The family rp2350-riscv, of executables for RISC-V.
pub const RISCV_FAMILY: u32 = 0xe48b_ff5a;
/// The family rp2350-arm-ns, of non-secure executables for Arm; the last of the six.
pub const ARM_NS_FAMILY: u32 = 0xe48b_ff5b;

/// The family of a name. None exactly where no family has it.
pub fn family_of(name: &str) -> Option<u32>
    ensures { result ≡ family_of name.now }
{
    match name {
        "rp2040" => Some(RP2040_FAMILY),
        "absolute" => Some(ABSOLUTE_FAMILY),
        "data" => Some(DATA_FAMILY),
        "rp2350-arm-s" => Some(ARM_S_FAMILY),
        "rp2350-riscv" => Some(RISCV_FAMILY),
        "rp2350-arm-ns" => Some(ARM_NS_FAMILY),
        _ => None,
    }
}
