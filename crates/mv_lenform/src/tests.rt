use super::*;
use mv_extract::ExtractError;
use mv_io::{MemSink, MemSource};
use mv_rules::{Refusal, Rule};
use std::alloc::Global;
use std::test::Fail;

static ROW: [u8; 12] = [0, 0, 1, 0x40, 1, 0xAA, 0, 0, 1, 2, 9, 0xBB];

static PACKED: [u8; 14] = [0, 0, 0, 3, 0x40, 1, 0xAA, 0, 0, 0, 3, 2, 9, 0xBB];

static FRAMED: [u8; 14] = [0, 0, 0, 1, 0x40, 1, 0xAA, 0, 0, 0, 1, 2, 9, 0xBB];

static ONES: [u32; 14] = [1; 14];

// What was written, and the answer.
fn unpacked(
    alloc: Global,
    input: &[u8],
    pieces: &[u32],
) -> Result<(MemSink, Result<u64, ExtractError>), Fail> {
    let mut source = MemSource::new(alloc, input, pieces, &[])?;
    let mut sink = MemSink::new(alloc, 100, &[])?;
    let answer = unpack(alloc, &mut source, 100, &mut sink);
    Ok((sink, answer))
}

#[test]
fn packs_and_unpacks(rt: HostRuntime) -> Result<(), Fail> {
    for pieces in [ONES.as_slice(), &[]] {
        let mut source = MemSource::new(rt.alloc(), &ROW, pieces, &[])?;
        let mut sink = MemSink::new(rt.alloc(), 100, &[])?;
        assert_eq!(rt; pack(rt.alloc(), &mut source, 100, &mut sink), Ok(2));
        assert_eq!(rt; sink.bytes(), PACKED.as_slice());
        let (sink, answer) = unpacked(rt.alloc(), &PACKED, pieces)?;
        assert_eq!(rt; answer, Ok(2));
        assert_eq!(rt; sink.bytes(), FRAMED.as_slice());
    }
    Ok(())
}

#[test]
fn refuses(rt: HostRuntime) -> Result<(), Fail> {
    let rows: [(&[u8], u64, Rule); 7] = [
        (&[0, 0, 0, 3, 0x40, 1], 6, Rule::Truncated),
        (&[0, 0, 0, 6, 0x40, 1, 0, 0, 1, 0xAA], 4, Rule::InnerCode),
        (&[0, 0, 0, 3, 0x40, 1, 0], 4, Rule::LastZero),
        (&[0, 0, 0, 5, 0, 0, 3, 4, 0], 4, Rule::Emulation),
        (&[0, 0, 0, 1, 0x40], 4, Rule::Short),
        (&[1, 0, 0, 1], 4, Rule::Long),
        (&[0], 1, Rule::Truncated),
    ];
    for (input, byte, rule) in rows {
        for pieces in [ONES.as_slice(), &[]] {
            let (sink, answer) = unpacked(rt.alloc(), input, pieces)?;
            assert_eq!(rt;
                answer,
                Err(ExtractError::Refused(Refusal {
                    unit: 0,
                    byte,
                    rule
                }))
            );
            assert_eq!(rt; sink.bytes().len(), 0);
        }
    }
    Ok(())
}
