ghost use Rattle.std.specs.Prelude.{◌<◌, ◌++◌, length, OnOk, OnErr};
ghost use Rattle.mv_io.specs.Sink.{SinkState, Appends, AppendsPrefix, WritesSome, WriteAppends};
ghost use Rattle.mv_io.specs.Faults.{HasCause};

/// A write failed, by a fault of the sink itself. It appended nothing.
#[derive(Clone, Copy, Debug, PartialEq, Eq)]
pub struct SinkFailed;

/// Takes bytes, one piece after another.
pub trait Sink {
    // The bytes that were taken, where the sink knows them, and how often it failed: a count that never
    // falls.
    ghost state: { Self → SinkState };

    /// Appends the first bytes of `piece`, which isn't empty, and says how many: at least 1.
    ///
    /// # Errors
    ///
    /// `SinkFailed`, only where the sink's count of faults rose in this call. Nothing is appended.
    fn write(&mut self, piece: &[u8]) -> Result<usize, SinkFailed>
        requires { 0 < length piece.now }
        ensures bound { WritesSome result piece.now }
        ensures appends { WriteAppends (state self.old).taken (state self.new).taken result piece.now }
        ensures cause { HasCause (state self.old).faults (state self.new).faults result };
}

/// Appends all of `bytes`, by as many writes as the sink needs. No bytes need no write.
///
/// # Errors
///
/// `SinkFailed` where a write failed, so only where the sink's count of faults rose in this call. Then
/// the sink took the bytes that come before the failed write, and not all of them.
pub fn write_all<K: Sink>(sink: &mut K, bytes: &[u8]) -> Result<(), SinkFailed>
    ensures all { OnOk result (Appends (K.state sink.old).taken (K.state sink.new).taken bytes.now) }
    ensures failed { OnErr result (AppendsPrefix (K.state sink.old).taken (K.state sink.new).taken bytes.now) }
    ensures cause { HasCause (K.state sink.old).faults (K.state sink.new).faults result }
{
    let mut written = 0;
    while written < bytes.len() {
        match sink.write(&bytes[written..]) {
            Ok(count) => written += count,
            Err(failed) => return Err(failed),
        }
    }
    Ok(())
}

/// Appends all of `first`, and then all of `second`.
///
/// # Errors
///
/// `SinkFailed` where a write failed, so only where the sink's count of faults rose in this call. Then
/// the sink took the bytes of both that come before the failed write, and not all of them.
pub fn write_both<K: Sink>(sink: &mut K, first: &[u8], second: &[u8]) -> Result<(), SinkFailed>
    ensures all { OnOk result (Appends (K.state sink.old).taken (K.state sink.new).taken (first.now ++ second.now)) }
    ensures failed { OnErr result (AppendsPrefix (K.state sink.old).taken (K.state sink.new).taken (first.now ++ second.now)) }
    ensures cause { HasCause (K.state sink.old).faults (K.state sink.new).faults result }
{
    match write_all(sink, first) {
        Ok(()) => write_all(sink, second),
        Err(failed) => Err(failed),
    }
}
