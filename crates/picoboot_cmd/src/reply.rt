//! Where the reply of a command goes.

ghost use Rattle.std.specs.Prelude.{◌≡◌, ℕ, ◌-◌, ◌^◌, List, [], ◌++◌, length, min};
ghost use Rattle.sha2.specs.Sha256.{sha256};
ghost use Rattle.picoboot_cmd.specs.Replies.{HasTakenBytes};

use sha2::{Digest, Sha256};

/// What takes the bytes of a reply, piece by piece.
pub trait Reply {
    // The reply stands for this list of bytes.
    ghost stands_for: { Self → List ℕ → Type 0 };

    /// Takes these bytes after the ones before.
    fn put(&mut self, bytes: &[u8])
        ensures { (before : List ℕ) → stands_for self.old before
            → stands_for self.new (before ++ bytes.now) };
}

/// A reply that keeps the number of its bytes, which saturates at 2^32 - 1, and the state of their
/// SHA-256.
#[derive(Drop)]
pub struct HashReply {
    count: u32,
    hasher: Sha256,
}

impl HashReply {
    /// A reply of no byte.
    pub fn new() -> HashReply
        ensures { HasTakenBytes result [] }
    {
        HashReply {
            count: 0,
            hasher: Sha256::new(),
        }
    }

    /// The number of the bytes, which saturates at 2^32 - 1.
    pub fn count(&self) -> u32
        ensures { (bytes : List ℕ) → HasTakenBytes self.now bytes
            → result ≡ min (length bytes) (2 ^ 32 - 1) }
    {
        self.count
    }

    /// The SHA-256 of the bytes.
    pub fn digest(self) -> [u8; 32]
        ensures { (bytes : List ℕ) → HasTakenBytes self bytes → result ≡ sha256 bytes }
    {
        self.hasher.finalize()
    }
}

impl Reply for HashReply {
    ghost use Rattle.picoboot_cmd.specs.Replies.{HasTakenBytes};

    ghost stands_for = { HasTakenBytes };

    fn put(&mut self, bytes: &[u8]) {
        let more = u32::try_from(bytes.len()).unwrap_or(u32::MAX);
        self.count = self.count.saturating_add(more);
        self.hasher.update(bytes);
    }
}
