//! The arguments of a command.

ghost use Rattle.std.specs.Prelude.{◌≡◌};
ghost use Rattle.picoboot_cmd.specs.Arguments.{address, ecc, first_row, offset, reboot_flags, reboot_p0, reboot_p1, row_count, size};

use crate::cmd::Cmd;
use byteorder::{ByteOrder, LittleEndian};
use pico_board::FLASH_BASE;

impl Cmd {
    /// The address of an erase, a read or a write.
    pub fn address(&self) -> u32
        ensures { result ≡ address self.now }
    {
        LittleEndian::read_u32(&self.args)
    }

    /// The number of bytes of an erase, a read or a write.
    pub fn size(&self) -> u32
        ensures { result ≡ size self.now }
    {
        LittleEndian::read_u32(&self.args[4..])
    }

    /// The flash offset of the address, where it lies in the flash.
    pub(crate) fn offset(&self) -> u32
        ensures { result ≡ offset self.now }
    {
        self.address().saturating_sub(FLASH_BASE)
    }

    /// The flags of a reboot.
    pub fn reboot_flags(&self) -> u32
        ensures { result ≡ reboot_flags self.now }
    {
        LittleEndian::read_u32(&self.args)
    }

    /// The parameter p0 of a reboot, the address of an updated region.
    pub fn reboot_p0(&self) -> u32
        ensures { result ≡ reboot_p0 self.now }
    {
        LittleEndian::read_u32(&self.args[8..])
    }

    /// The parameter p1 of a reboot, the size of a range in RAM. A reboot from flash does not read
    /// it.
    pub fn reboot_p1(&self) -> u32
        ensures { result ≡ reboot_p1 self.now }
    {
        LittleEndian::read_u32(&self.args[12..])
    }

    /// The first OTP row of a read or a write.
    pub(crate) fn first_row(&self) -> u16
        ensures { result ≡ first_row self.now }
    {
        LittleEndian::read_u16(&self.args)
    }

    /// The number of OTP rows of a read or a write.
    pub(crate) fn row_count(&self) -> u16
        ensures { result ≡ row_count self.now }
    {
        LittleEndian::read_u16(&self.args[2..])
    }

    /// The byte by which OTP rows are asked for with error correction.
    pub(crate) fn ecc(&self) -> u8
        ensures { result ≡ ecc self.now }
    {
        self.args[4]
    }
}
