ghost use Rattle.std.specs.Prelude.{◌≡◌, ◌<◌, ◌≤◌, None, length, IfSome};

use crate::sink::{Sink, SinkFailed};
use std::io::{Eprint, Print};
use std::marker::Model;
use std::str;

/// The standard output or error, one call of the system for each write. Contracts know nothing of the bytes
/// that reach the system, and see it as its count of faults, which rises at each write that the system fails,
/// or of which it takes no byte.
#[derive(Drop)]
pub struct StdSink<R: Print + Eprint + Drop> {
    rt: R,
    end: End,
    faults: u64,
}

#[derive(Clone, Copy)]
enum End {
    Output,
    Error,
}

impl<R: Print + Eprint + Drop> Model for StdSink<R> {
    ghost use Rattle.std.specs.Prelude.{ℕ};

    ghost Value = { ℕ };

    ghost view = { λ s. s.faults };
}

impl<R: Print + Eprint + Drop> StdSink<R> {
    /// The standard output of the runtime, which the end keeps. Its count of faults is 0.
    pub fn output(rt: R) -> StdSink<R>
        ensures made { result ≡ 0 }
    {
        StdSink {
            rt,
            end: End::Output,
            faults: 0,
        }
    }

    /// The standard error of the runtime, which the end keeps. It takes text alone: a piece that isn't UTF-8
    /// is a fault. Its count of faults is 0.
    pub fn error(rt: R) -> StdSink<R>
        ensures made { result ≡ 0 }
    {
        StdSink {
            rt,
            end: End::Error,
            faults: 0,
        }
    }
}

impl<R: Print + Eprint + Drop> Sink for StdSink<R> {
    ghost state = { λ faults. record { taken = None; faults = faults } };

    fn write(&mut self, piece: &[u8]) -> Result<usize, SinkFailed> {
        let count = match self.end {
            End::Output => send(&self.rt, piece),
            End::Error => say(&self.rt, piece),
        };
        match count {
            Some(count) => Ok(count),
            None => {
                self.faults = self.faults.saturating_add(1);
                Err(SinkFailed)
            }
        }
    }
}

// One write to the standard output: how many bytes it took, or None where it failed or took none.
fn send<R: Print>(rt: &R, bytes: &[u8]) -> Option<usize>
    ensures bound { IfSome result (λ n. (0 < n) × (n ≤ length bytes.now)) }
{
    match rt.write_some(bytes) {
        Ok(count) if count > 0 => Some(count),
        _ => None,
    }
}

// Writes a text to the standard error: its number of bytes, or None where it failed or is no UTF-8.
fn say<R: Eprint>(rt: &R, piece: &[u8]) -> Option<usize>
    ensures whole { IfSome result (λ n. n ≡ length piece.now) }
{
    let Ok(text) = str::from_utf8(piece) else {
        return None;
    };
    match rt.eprint(text) {
        Ok(()) => Some(piece.len()),
        Err(_) => None,
    }
}
