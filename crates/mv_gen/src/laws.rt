//! Laws of the streams that are made.

ghost use Rattle.std.specs.Prelude.{◌≡◌, ◌+◌, ◌*◌, ◌<◌, length};
ghost use Rattle.mv_syntax.specs.Bits.{byte_bits};
ghost use Rattle.mv_syntax.specs.Table.{Valid, bits_of};
ghost use Rattle.mv_slice.specs.Context.{Fits};
ghost use Rattle.mv_slice.specs.Slice.{slice_header};
ghost use Rattle.mv_gen.specs.Contexts.{context};
ghost use Rattle.mv_gen.specs.Headers.{head_of, header_of, slice_head};
ghost use Rattle.mv_gen.specs.Units.{gen_units};

/// The slice segment header of each picture is valid by the table of slice segment headers (7.3.6.1, F.7.3.6.1), and its bytes
/// have the bits that the table gives it, all of them.
pub fn header_laws(layer: u8, lsb: u8)
    requires layer { layer < 2 }
    requires lsb { lsb < 8 }
    ensures fits { Fits (context layer) }
    ensures valid { Valid (slice_header (context layer) (head_of layer lsb).kind) (slice_head layer lsb) }
    ensures bits { byte_bits (header_of layer lsb) ≡ bits_of (slice_header (context layer) (head_of layer lsb).kind) (slice_head layer lsb) }
{}

/// A stream has five parameter sets, and two pictures for each access unit.
pub fn stream_laws(number: u64, count: u32)
    ensures { length (gen_units number count) ≡ 5 + 2 * count }
{}
