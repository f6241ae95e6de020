//! A stream that an independent program made, unit by unit and as it is written.

use crate::{Gen, GenerateError, generate};
use mv_io::MemSink;
use std::test::Fail;

#[test]
fn the_stream_of_7_has_three_access_units(rt: HostRuntime) -> Result<(), Fail> {
    let units = [
        b"\x40\x01\x0c\x11\xff\xff\x01\x60\x00\x00\x03\x00\x90\x00\x00\x03\x00\x00\x03\x00\x5d\xac\x15\xbf\x5d\x20\x00\x04\x59\x70\x60\x20\x00\x00\x09\x00\x00\x03\x00\x00\x03\x00\x05\xd8\xd0\x04\x00\x04\x0a\x00\x89\x7d\x20".as_slice(),
        b"\x42\x01\x01\x01\x60\x00\x00\x03\x00\x90\x00\x00\x03\x00\x00\x03\x00\x5d\xa0\x20\x81\x05\xeb\xab\xc2\x08".as_slice(),
        b"\x42\x09\x0e\x9a\xbc\x21\x40\x40".as_slice(),
        b"\x44\x01\xc0\x71\x80\x12".as_slice(),
        b"\x44\x09\x48\x07\x18\x01\x20".as_slice(),
        b"\x26\x01\xaf\x0d\xad\x5b\xb8\xc9\x00\x00\xf0\xa6\x66\x09\x00\x00\x41\xf9\x73\x8e\x00\x98\x00\x7b\x26\x47\x3e\x00\x00\x1d\xd1\x00\x00\xf1\x80".as_slice(),
        b"\x26\x09\x92\x07\x9a\x6b\x58\x03\xb5\x00\x00\x58\x1a\x00\x77\x00\x00\x03\x00\x00\xc0\x21\x00\x94\xbe\x00\x1d\xe8\x00\x00\x3e\xd7\xaa\xf6\x1c\x00\x3e\x5f\x00\x66\x00\x35\x53\x7d\x80".as_slice(),
        b"\x02\x01\xd0\x97\x70\x5f\x00\xd7\x04\x2a\x5f\x4d\x80".as_slice(),
        b"\x02\x09\xa4\x25\xeb\x80\x44\x00\x00\xb7\x6b\x87\x99\x16\x3f\x98\xc7\xed\x1c\x00\x37\xfa\x00\x3b\x61\x00\xf3\x67\x00\xcb\x9e\x61\x00\x90\x8b\x14\xf0\x00\x00\xd6\xaa\x8c\x10\xdc\xcc\x13\xab\x80".as_slice(),
        b"\x02\x01\xd1\x17\x70\x90\x6e\x00\x00\x81\x83\x50\x8d\x11\x7d\x3e\x80".as_slice(),
        b"\x02\x09\xa4\x45\xeb\x80\xbc\x17\x76\x8c\xcd\x00\x00\x03\x00\x00\xc6\x2b\xf5\x4a\xe5\xfb\xa4\x7e\x40\x5d\xe5\x8e\x32\x00\x41\x9a\x4e\x00\x00\x7d\x33\xc3\xec\xe6\xda\x1d\x95\x8b\xcb\x12\x00\x07\x13\x00\x5a\x4c\x00\xe7\x4a\x16\xbe\x80".as_slice(),
    ];
    let mut stream = Gen::new(7, 3);
    for unit in units {
        let given = stream.next_unit(rt.alloc())?;
        assert_eq!(rt; given.as_deref(), Some(unit));
    }
    assert_eq!(rt; stream.next_unit(rt.alloc())?, None);
    assert_eq!(rt; stream.next_unit(rt.alloc())?, None);
    Ok(())
}

// The first access unit of that stream, with the parameter sets, framed.
static WRITTEN: [u8; 208] = [
    0x00, 0x00, 0x00, 0x01, 0x40, 0x01, 0x0C, 0x11, 0xFF, 0xFF, 0x01, 0x60, 0x00, 0x00, 0x03, 0x00,
    0x90, 0x00, 0x00, 0x03, 0x00, 0x00, 0x03, 0x00, 0x5D, 0xAC, 0x15, 0xBF, 0x5D, 0x20, 0x00, 0x04,
    0x59, 0x70, 0x60, 0x20, 0x00, 0x00, 0x09, 0x00, 0x00, 0x03, 0x00, 0x00, 0x03, 0x00, 0x05, 0xD8,
    0xD0, 0x04, 0x00, 0x04, 0x0A, 0x00, 0x89, 0x7D, 0x20, 0x00, 0x00, 0x00, 0x01, 0x42, 0x01, 0x01,
    0x01, 0x60, 0x00, 0x00, 0x03, 0x00, 0x90, 0x00, 0x00, 0x03, 0x00, 0x00, 0x03, 0x00, 0x5D, 0xA0,
    0x20, 0x81, 0x05, 0xEB, 0xAB, 0xC2, 0x08, 0x00, 0x00, 0x00, 0x01, 0x42, 0x09, 0x0E, 0x9A, 0xBC,
    0x21, 0x40, 0x40, 0x00, 0x00, 0x00, 0x01, 0x44, 0x01, 0xC0, 0x71, 0x80, 0x12, 0x00, 0x00, 0x00,
    0x01, 0x44, 0x09, 0x48, 0x07, 0x18, 0x01, 0x20, 0x00, 0x00, 0x00, 0x01, 0x26, 0x01, 0xAF, 0x0D,
    0xAD, 0x5B, 0xB8, 0xC9, 0x00, 0x00, 0xF0, 0xA6, 0x66, 0x09, 0x00, 0x00, 0x41, 0xF9, 0x73, 0x8E,
    0x00, 0x98, 0x00, 0x7B, 0x26, 0x47, 0x3E, 0x00, 0x00, 0x1D, 0xD1, 0x00, 0x00, 0xF1, 0x80, 0x00,
    0x00, 0x00, 0x01, 0x26, 0x09, 0x92, 0x07, 0x9A, 0x6B, 0x58, 0x03, 0xB5, 0x00, 0x00, 0x58, 0x1A,
    0x00, 0x77, 0x00, 0x00, 0x03, 0x00, 0x00, 0xC0, 0x21, 0x00, 0x94, 0xBE, 0x00, 0x1D, 0xE8, 0x00,
    0x00, 0x3E, 0xD7, 0xAA, 0xF6, 0x1C, 0x00, 0x3E, 0x5F, 0x00, 0x66, 0x00, 0x35, 0x53, 0x7D, 0x80,
];

// How many bytes stand before each write: a start code, and then a unit.
static PLACES: [usize; 14] = [0, 4, 57, 61, 87, 91, 99, 103, 109, 113, 120, 124, 159, 163];

#[test]
fn writes_each_unit_behind_a_start_code(rt: HostRuntime) -> Result<(), Fail> {
    let mut sink = MemSink::new(rt.alloc(), 208, &[])?;
    assert_eq!(rt; generate(rt.alloc(), 7, 1, &mut sink), Ok(()));
    assert_eq!(rt; sink.bytes(), WRITTEN.as_slice());
    Ok(())
}

#[test]
fn stops_at_each_write_that_fails(rt: HostRuntime) -> Result<(), Fail> {
    for (number, place) in PLACES.iter().enumerate() {
        let mut sink = MemSink::new(rt.alloc(), 208, &[number as u64])?;
        assert_eq!(rt;
            generate(rt.alloc(), 7, 1, &mut sink),
            Err(GenerateError::Write)
        );
        assert_eq!(rt; sink.bytes(), WRITTEN.get(..*place).unwrap_or_default());
    }
    Ok(())
}
