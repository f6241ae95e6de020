ghost use Rattle.std.specs.Prelude.{◌≡◌, None};

use crate::source::{Source, SourceFailed};
use std::io::{Input, Read};
use std::marker::Model;

/// The standard input. Contracts know nothing of its bytes, and see it as its count of faults, which
/// rises at each read that the system fails.
#[derive(Drop)]
pub struct StdSource<R: Input + Drop> {
    rt: R,
    reader: R::Reader,
    faults: u64,
}

impl<R: Input + Drop> Model for StdSource<R> {
    ghost use Rattle.std.specs.Prelude.{ℕ};

    ghost Value = { ℕ };

    ghost view = { λ s. s.faults };
}

impl<R: Input + Drop> StdSource<R> {
    /// The standard input of the runtime, which the end keeps. Its count of faults is 0.
    pub fn new(rt: R) -> StdSource<R>
        ensures made { result ≡ 0 }
    {
        let reader = rt.reader();
        StdSource {
            rt,
            reader,
            faults: 0,
        }
    }
}

impl<R: Input + Drop> Source for StdSource<R> {
    ghost state = { λ faults. record { told = None; faults = faults } };

    fn read(&mut self, into: &mut [u8]) -> Result<usize, SourceFailed> {
        match self.reader.read(into) {
            Ok(count) => Ok(count),
            Err(_) => {
                self.faults = self.faults.saturating_add(1);
                Err(SourceFailed)
            }
        }
    }
}
