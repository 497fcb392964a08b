//! The SRAM that a host writes.

ghost use Rattle.std.specs.Prelude.{◌≡◌, ◌+◌, ◌≤◌, IfOk, length, replicate};
ghost use Rattle.ram_start.specs.Sram.{zero_ram, with_bytes_at};

use std::alloc::{AllocError, Global};
use std::marker::Model;

/// The number of bytes of the SRAM.
const SIZE: usize = 532_480;

/// The SRAM, 532,480 bytes, seen as their list.
#[derive(Drop)]
pub struct Ram {
    bytes: Vec<u8>,
}

impl Model for Ram {
    ghost use Rattle.std.specs.Prelude.{ℕ, List};
    ghost use Rattle.ram_start.specs.Sram.{IsSram};

    ghost Value = { List ℕ };

    ghost view = { λ ram. ram.bytes.items };

    ghost invariant = { λ ram. IsSram ram.bytes.items };
}

/// So many bytes 0.
fn zeros(alloc: Global, n: usize) -> Result<Vec<u8>, AllocError>
    ensures { IfOk result (λ bytes. bytes.items ≡ replicate n 0) }
{
    vec![in alloc; 0_u8; n]
}

/// Makes the bytes 0.
fn clear(bytes: &mut [u8])
    ensures { bytes.new ≡ replicate (length bytes.old) 0 }
{
    bytes.fill(0);
}

impl Ram {
    /// An SRAM of zeros. It fails only where memory is out.
    pub fn make(alloc: Global) -> Result<Ram, AllocError>
        ensures { IfOk result (λ ram. ram ≡ zero_ram) }
    {
        Ok(Ram {
            bytes: zeros(alloc, SIZE)?,
        })
    }

    /// Makes all bytes 0.
    pub fn clear(&mut self)
        ensures { self.new ≡ zero_ram }
    {
        clear(self.bytes.as_mut_slice());
    }

    /// The bytes.
    pub fn bytes(&self) -> &[u8]
        ensures value { result.now ≡ self.now }
        ensures len { length result.now ≡ 532480 }
    {
        self.bytes.as_slice()
    }

    /// Stores bytes at an offset.
    pub(crate) fn store(&mut self, at: u32, bytes: &[u8])
        requires { at + length bytes.now ≤ 532480 }
        ensures { self.new ≡ with_bytes_at self.old at bytes.now }
    {
        let start = at as usize;
        self.bytes[start..start + bytes.len()].copy_from_slice(bytes);
    }
}
