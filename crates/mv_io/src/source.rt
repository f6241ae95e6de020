ghost use Rattle.std.specs.Prelude.{◌<◌, length};
ghost use Rattle.mv_io.specs.Source.{SourceState, ReadsAtMost, ReadTells};
ghost use Rattle.mv_io.specs.Faults.{HasCause};

/// A read failed, by a fault of the source itself. It took no byte.
#[derive(Clone, Copy, Debug, PartialEq, Eq)]
pub struct SourceFailed;

/// Gives bytes, one piece after another.
pub trait Source {
    // The bytes that are left and whether the end was read, where the source knows them, and how often
    // it failed: a count that never falls.
    ghost state: { Self → SourceState };

    /// Fills the front of `into`, which isn't empty, with the next bytes, and says how many they are.
    /// They are then no longer left. The answer 0 is the end: no byte is left.
    ///
    /// # Errors
    ///
    /// `SourceFailed`, only where the source's count of faults rose in this call. No byte is taken.
    fn read(&mut self, into: &mut [u8]) -> Result<usize, SourceFailed>
        requires { 0 < length into.old }
        ensures bound { ReadsAtMost result into.new }
        ensures tells { ReadTells (state self.old).told (state self.new).told result into.new }
        ensures cause { HasCause (state self.old).faults (state self.new).faults result };
}
