//! A message on its way into a SHA-256, with the number of its bytes.

ghost use Rattle.std.specs.Prelude.{◌≡◌, ◌+◌, ◌^◌, min, ℕ, List, [], ◌++◌};
ghost use Rattle.mv_provenance.specs.Message.{Fed, digest_of};

use sha2::{Digest, Sha256};

/// A message of so many bytes or more has no SHA-256 (FIPS 180-4): its length in bits has more than 64 of them.
const TOO_LONG: u64 = 0x2000_0000_0000_0000;

/// The bytes of a message so far, and their number, which stands still at 2^61.
#[derive(Drop)]
pub struct Message {
    hasher: Sha256,
    length: u64,
}

impl Message {
    /// A message of no bytes.
    pub fn new() -> Message
        ensures empty { Fed result [] }
    {
        Message {
            hasher: Sha256::new(),
            length: 0,
        }
    }

    /// Adds bytes at the end.
    pub fn add(&mut self, bytes: &[u8])
        ensures added { (message : List ℕ) → Fed self.old message → Fed self.new (message ++ bytes.now) }
    {
        self.hasher.update(bytes);
        self.length = longer(self.length, bytes.len());
    }

    /// The SHA-256 of the message, or 32 zero bytes where it has 2^61 bytes or more.
    pub fn finish(self) -> [u8; 32]
        ensures digest { (message : List ℕ) → Fed self message → result ≡ digest_of message }
    {
        if self.length < TOO_LONG {
            self.hasher.finalize()
        } else {
            [0; 32]
        }
    }
}

// A number of bytes and more of them, which stands still at 2^61.
fn longer(length: u64, more: usize) -> u64
    ensures { result ≡ min (length + more) (2 ^ 61) }
{
    length.saturating_add(more as u64).min(TOO_LONG)
}
