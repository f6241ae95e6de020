//! Byte streams of ITU-T H.265, Annex B: units are found in a stream, their heads are read, and units are
//! put into a stream.
#![tactic(auto)]

mod escaping;
mod framing;
mod heads;
mod machine;
mod making;
#[cfg(test)]
mod scan_tests;
mod scanner;
mod splitting;
#[cfg(test)]
mod tests;
mod unescaping;

pub use escaping::escape;
pub use framing::frame;
pub use heads::read_head;
pub use mv_units::UnitHead;
pub use scanner::{Found, Scanner};
pub use splitting::{ScanFault, Span, split};
pub use unescaping::unescape;
