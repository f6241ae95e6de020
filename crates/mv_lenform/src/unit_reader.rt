//! The reader of the length-prefixed form as a reader of units.
#![tactic(auto)]

ghost use Rattle.mv_prefixed.specs.Form.{length_form};
ghost use Rattle.mv_prefixed.proofs.Forms.{form-of};
ghost use Rattle.mv_lenform.specs.Reader.{reader-means, reader_stands, reading_of};

use crate::len_reader::LenReader;
use mv_bytestream::{Found, ScanFault};
use mv_engine::UnitReader;

impl UnitReader for LenReader {
    ghost format = { length_form };

    ghost reading = { reading_of };

    ghost stands = { reader_stands };

    fn feed(&mut self, piece: &[u8]) -> Result<usize, ScanFault> {
        LenReader::feed(self, piece)
    }

    fn next_unit(&mut self) -> Option<Found<'_>> {
        LenReader::next_unit(self)
    }

    fn finish(&mut self) -> Result<(), ScanFault> {
        LenReader::finish(self)
    }

    ghost means = { reader-means };

    ghost is_format = { form-of };
}
