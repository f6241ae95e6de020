//! mv_cli, an extractor of sub-bitstreams of MV-HEVC byte streams: `mv_cli extract N` reads a byte stream
//! from the standard input, checks it, and writes the units that are kept for output layer set N on the standard output as
//! they come; `mv_cli check` checks it alone, and writes its totals.
//! `pack` and `unpack` carry units to the length-prefixed form and back.
#![tactic(auto)]

mod command;
mod ending;
mod line;
mod run;
#[cfg(test)]
mod tests;
#[cfg(test)]
mod two_view_tests;
#[cfg(test)]
mod verdict_tests;

use mv_io::{Buffered, StdSink, StdSource};
pub use run::{run, run_within};
use std::env;
use std::io::ErrorKind;
use std::process::ExitCode;

fn main(rt: HostRuntime) -> ExitCode {
    let args = match env::args(&rt) {
        Ok(args) => args,
        Err(error) if error.kind() == ErrorKind::OutOfMemory => return ExitCode::from(5),
        Err(_) => return ExitCode::from(9),
    };
    let words = match args.skip(1).collect::<Vec<String>>(rt.alloc()) {
        Ok(words) => words,
        Err(_) => return ExitCode::from(5),
    };
    let mut input = StdSource::new(&rt);
    let mut output = Buffered::new(StdSink::output(&rt));
    let mut faults = StdSink::error(&rt);
    let status = run(rt.alloc(), &words, &mut input, &mut output, &mut faults);
    let flushed = output.flush();
    ExitCode::from(run::with_flush(status, flushed.is_ok(), &mut faults))
}
