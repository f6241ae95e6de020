ghost use Rattle.std.specs.Prelude.{◌≡◌, ◌<◌, ◌++◌, [], length, take, IfOk, OnOk, OnErr};
ghost use Rattle.mv_io.specs.Buffered.{HandsOn, buffered_state};
ghost use Rattle.mv_io.specs.Faults.{HasCause};
ghost use Rattle.mv_io.specs.Sink.{WritesSome, WriteAppends};

use crate::buffer::{BUFFER_LEN, Buffer};
use crate::sink::{Sink, SinkFailed};
use std::marker::Model;

/// A sink that hands its bytes on to the one below in large pieces. It keeps up to 65,536 bytes back, in a
/// buffer that is a part of this value and takes no memory besides, and hands them on when a piece no longer
/// fits, at `flush`, and when the value is dropped. A piece that is longer than the buffer goes past it, behind
/// the bytes that waited.
///
/// The bytes that it tells are those that were handed in, so it is its own master only until the last `flush`:
/// call that before the end of the program, since a drop can't tell that a write failed. Its count of faults
/// is that of the sink below.
pub struct Buffered<K: Sink> {
    below: K,
    buffer: Buffer,
}

impl<K: Sink> Model for Buffered<K> {
    ghost use Rattle.mv_io.specs.Buffered.{Buffering, buffering_code};

    ghost Value = { Buffering K };

    ghost coded = { buffering_code K.code };

    ghost view = { λ b. record { below = b.below; waiting = b.buffer.waiting } };
}

impl<K: Sink> Buffered<K> {
    /// A buffer before the sink `below`, in which no byte waits.
    pub fn new(below: K) -> Buffered<K>
        ensures made { result ≡ record { below = below; waiting = [] } }
    {
        Buffered {
            below,
            buffer: Buffer::new(),
        }
    }

    /// The sink below.
    pub fn below(&self) -> &K
        ensures below { result.now ≡ self.now.below }
    {
        &self.below
    }

    /// Hands all bytes that wait on to the sink below.
    ///
    /// # Errors
    ///
    /// `SinkFailed` where a write of the sink below failed, so only where its count of faults rose in this
    /// call. The bytes that it didn't take wait on.
    pub fn flush(&mut self) -> Result<(), SinkFailed>
        ensures hands_on { HandsOn (K.state self.old.below) (K.state self.new.below) self.old.waiting self.new.waiting }
        ensures all { OnOk result (self.new.waiting ≡ []) }
        ensures cause { HasCause (K.state self.old.below).faults (K.state self.new.below).faults result }
    {
        drain(&mut self.below, &mut self.buffer)
    }
}

impl<K: Sink> Sink for Buffered<K> {
    ghost state = { λ b. buffered_state (K.state b.below) b.waiting };

    fn write(&mut self, piece: &[u8]) -> Result<usize, SinkFailed>
        requires { 0 < length piece.now }
        ensures bound { WritesSome result piece.now }
        ensures appends { WriteAppends
            (buffered_state (K.state self.old.below) self.old.waiting).taken
            (buffered_state (K.state self.new.below) self.new.waiting).taken
            result piece.now }
        ensures cause { HasCause (K.state self.old.below).faults (K.state self.new.below).faults result }

        // What the sink below took of the bytes that waited and of those that are taken now.
        ensures hands_on { IfOk result (λ n. HandsOn (K.state self.old.below) (K.state self.new.below)
            (self.old.waiting ++ take n piece.now) self.new.waiting) }
        ensures failed { OnErr result (HandsOn (K.state self.old.below) (K.state self.new.below)
            self.old.waiting self.new.waiting) }
    {
        put(&mut self.below, &mut self.buffer, piece)
    }
}

/// Hands on what waits, as far as the sink below takes it.
impl<K: Sink + Drop> Drop for Buffered<K> {
    fn drop(self) {
        let Buffered {
            mut below,
            mut buffer,
        } = self;
        let _ = drain(&mut below, &mut buffer);
        drop(below);
    }
}

// Puts a piece into the buffer, which is drained first where the piece doesn't fit.
fn put<K: Sink>(below: &mut K, buffer: &mut Buffer, piece: &[u8]) -> Result<usize, SinkFailed>
    requires { 0 < length piece.now }
    ensures bound { WritesSome result piece.now }
    ensures hands_on { IfOk result (λ n. HandsOn (K.state below.old) (K.state below.new)
        (buffer.old.waiting ++ take n piece.now) buffer.new.waiting) }
    ensures failed { OnErr result (HandsOn (K.state below.old) (K.state below.new)
        buffer.old.waiting buffer.new.waiting) }
    ensures cause { HasCause (K.state below.old).faults (K.state below.new).faults result }
{
    if piece.len() <= buffer.room() {
        buffer.push(piece);
        return Ok(piece.len());
    }
    match drain(below, buffer) {
        Ok(()) => put_empty(below, buffer, piece),
        Err(failed) => Err(failed),
    }
}

// Puts a piece into the empty buffer, or past it where the piece is longer.
fn put_empty<K: Sink>(below: &mut K, buffer: &mut Buffer, piece: &[u8]) -> Result<usize, SinkFailed>
    requires some { 0 < length piece.now }
    requires empty { buffer.old ≡ record { waiting = []; room = 65536 } }
    ensures bound { WritesSome result piece.now }
    ensures hands_on { IfOk result (λ n. HandsOn (K.state below.old) (K.state below.new)
        (take n piece.now) buffer.new.waiting) }
    ensures failed { OnErr result (HandsOn (K.state below.old) (K.state below.new) [] buffer.new.waiting) }
    ensures cause { HasCause (K.state below.old).faults (K.state below.new).faults result }
{
    if piece.len() > BUFFER_LEN {
        return below.write(piece);
    }
    buffer.push(piece);
    Ok(piece.len())
}

// Hands what waits on, as far as the sink below takes it.
fn drain<K: Sink>(below: &mut K, buffer: &mut Buffer) -> Result<(), SinkFailed>
    ensures hands_on { HandsOn (K.state below.old) (K.state below.new) buffer.old.waiting buffer.new.waiting }
    ensures all { OnOk result (buffer.new ≡ record { waiting = []; room = 65536 }) }
    ensures cause { HasCause (K.state below.old).faults (K.state below.new).faults result }
{
    while !buffer.waiting().is_empty() {
        match below.write(buffer.waiting()) {
            Ok(count) => buffer.remove(count),
            Err(failed) => return Err(failed),
        }
    }
    buffer.clear();
    Ok(())
}
