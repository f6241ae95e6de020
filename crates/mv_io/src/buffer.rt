ghost use Rattle.std.specs.Prelude.{◌≡◌, ◌≤◌, ◌-◌, [], ◌++◌, drop, length};

use std::marker::Model;

// How many bytes a buffer holds.
pub const BUFFER_LEN: usize = 65536;

// Bytes that wait, which are `bytes[start..end]`. The buffer is a part of the end
// that has it, so it takes no memory.
#[derive(Drop)]
pub struct Buffer {
    bytes: [u8; BUFFER_LEN],
    start: usize,
    end: usize,
}

impl Model for Buffer {
    ghost use Rattle.std.specs.Prelude.{◌≤◌, ◌-◌, drop, take};
    ghost use Rattle.mv_io.specs.Buffer.{Queue};

    ghost Value = { Queue };

    ghost view = { λ b. record { waiting = drop b.start (take b.end b.bytes); room = 65536 - b.end } };

    ghost invariant = { λ b. (b.start ≤ b.end) × (b.end ≤ 65536) };
}

impl Buffer {
    pub fn new() -> Buffer
        ensures empty { result ≡ record { waiting = []; room = 65536 } }
    {
        Buffer {
            bytes: [0; BUFFER_LEN],
            start: 0,
            end: 0,
        }
    }

    pub fn room(&self) -> usize
        ensures room { result ≡ self.now.room }
    {
        BUFFER_LEN - self.end
    }

    pub fn waiting(&self) -> &[u8]
        ensures waiting { result.now ≡ self.now.waiting }
    {
        &self.bytes[self.start..self.end]
    }

    // Puts bytes behind those that wait.
    pub fn push(&mut self, piece: &[u8])
        requires { length piece.now ≤ self.old.room }
        ensures pushed { self.new ≡ record {
          waiting = self.old.waiting ++ piece.now;
          room = self.old.room - length piece.now;
        } }
    {
        let end = self.end + piece.len();
        self.bytes[self.end..end].copy_from_slice(piece);
        self.end = end;
    }

    // Takes away the first bytes that wait.
    pub fn remove(&mut self, count: usize)
        requires { count ≤ length self.old.waiting }
        ensures others_wait { self.new ≡ record self.old { waiting = drop count self.old.waiting } }
    {
        self.start += count;
    }

    // Makes room for all, where nothing waits.
    pub fn clear(&mut self)
        requires { self.old.waiting ≡ [] }
        ensures empty { self.new ≡ record { waiting = []; room = 65536 } }
    {
        self.start = 0;
        self.end = 0;
    }
}
