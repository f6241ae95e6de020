ghost use Rattle.std.specs.Prelude.{None};

use super::*;
use std::cell::{Cell, RefCell};
use std::fmt::Display;
use std::io;
use std::io::{Eprint, ErrorKind, Print};
use std::test::Fail;

// What a read of two or three bytes gives: the bytes, or None where it fails.
#[test]
fn reads_of_memory(rt: HostRuntime) -> Result<(), Fail> {
    let bytes = b"abcde";
    let cases: [(&[u32], &[u64], usize, [Option<&[u8]>; 5]); 3] = [
        (
            &[],
            &[],
            2,
            [Some(b"ab"), Some(b"cd"), Some(b"e"), Some(b""), Some(b"")],
        ),
        (
            &[1, 0, 9],
            &[],
            2,
            [Some(b"a"), Some(b"bc"), Some(b"de"), Some(b""), Some(b"")],
        ),
        (
            &[2, 0],
            &[1, 4],
            3,
            [Some(b"ab"), None, Some(b"cde"), Some(b""), None],
        ),
    ];
    for (pieces, failing, room, wanted) in cases {
        let mut source = MemSource::new(rt.alloc(), bytes.as_slice(), pieces, failing)?;
        for want in wanted {
            let mut into = [0; 3];
            let got = match source.read(&mut into[..room]) {
                Ok(count) => Some(&into[..count]),
                Err(SourceFailed) => None,
            };
            assert!(rt; got == want);
        }
    }
    Ok(())
}

#[test]
fn writes_to_memory(rt: HostRuntime) -> Result<(), Fail> {
    let mut sink = MemSink::new(rt.alloc(), 5, &[1])?;
    assert_eq!(rt; sink.write(b"abc"), Ok(3));
    assert_eq!(rt; sink.write(b"d"), Err(SinkFailed));
    assert_eq!(rt; sink.write(b"def"), Err(SinkFailed));
    assert_eq!(rt; sink.write(b"de"), Ok(2));
    assert_eq!(rt; sink.write(b"f"), Err(SinkFailed));
    assert_eq!(rt; sink.bytes(), b"abcde".as_slice());
    assert!(rt; MemSink::new(rt.alloc(), usize::MAX, &[]).is_err());
    Ok(())
}

// Takes one byte a write, and fails from write number `failing` on.
#[derive(Drop)]
struct OneByte {
    taken: Vec<u8>,
    failing: usize,
    faults: u64,
}

impl Sink for OneByte {
    ghost state = { λ sink. record { taken = None; faults = sink.faults } };

    fn write(&mut self, piece: &[u8]) -> Result<usize, SinkFailed> {
        if self.taken.len() == self.failing || self.taken.push(piece[0]).is_err() {
            self.faults = self.faults.saturating_add(1);
            return Err(SinkFailed);
        }
        Ok(1)
    }
}

#[test]
fn write_all_goes_on(rt: HostRuntime) -> Result<(), Fail> {
    for (failing, taken, answer) in [
        (9, b"abcde".as_slice(), Ok(())),
        (5, b"abcde", Ok(())),
        (2, b"ab", Err(SinkFailed)),
        (0, b"", Err(SinkFailed)),
    ] {
        let mut sink = OneByte {
            taken: Vec::new(rt.alloc()),
            failing,
            faults: 0,
        };
        assert_eq!(rt; write_all(&mut sink, b"abcde"), answer);
        assert_eq!(rt; sink.taken.as_slice(), taken);
    }
    Ok(())
}

// A system whose standard output takes at most `most` bytes a write and `room` bytes in all.
#[derive(Drop)]
struct Narrow {
    taken: RefCell<Vec<u8>>,
    most: usize,
    room: Cell<usize>,
}

impl Print for Narrow {
    fn print<D: Display + Drop>(&self, _value: D) -> io::Result<()> {
        Ok(())
    }

    fn println<D: Display + Drop>(&self, _value: D) -> io::Result<()> {
        Ok(())
    }

    fn write_all(&self, _bytes: &[u8]) -> io::Result<()> {
        Ok(())
    }

    fn write_some(&self, bytes: &[u8]) -> io::Result<usize> {
        let room = self.room.get();
        let count = bytes.len().min(self.most).min(room);
        match self.taken.try_borrow_mut() {
            Ok(mut taken) => taken.extend_from_slice(&bytes[..count])?,
            Err(_) => return Err(ErrorKind::Other.into()),
        }
        self.room.set(room - count);
        Ok(count)
    }
}

impl Eprint for Narrow {
    fn eprint<D: Display + Drop>(&self, _value: D) -> io::Result<()> {
        Ok(())
    }

    fn eprintln<D: Display + Drop>(&self, _value: D) -> io::Result<()> {
        Ok(())
    }
}

// What reached the system.
fn length_of(system: &Narrow) -> usize {
    match system.taken.try_borrow() {
        Ok(taken) => taken.len(),
        Err(_) => 0,
    }
}

// What is taken waits, a long piece goes past the buffer, a failed flush leaves the rest, and the drop of
// the end hands it on.
#[test]
fn a_buffer_loses_nothing(rt: HostRuntime) -> Result<(), Fail> {
    let system = Narrow {
        taken: RefCell::new(Vec::new(rt.alloc())),
        most: 40_000,
        room: Cell::new(usize::MAX),
    };
    let long = vec![in rt.alloc(); b'f'; 70_000]?;
    {
        let mut sink = Buffered::new(StdSink::output(&system));
        assert_eq!(rt; write_all(&mut sink, b"abc"), Ok(()));
        assert_eq!(rt; length_of(&system), 0);
        assert_eq!(rt; sink.flush(), Ok(()));
        assert_eq!(rt; length_of(&system), 3);
        assert_eq!(rt; write_both(&mut sink, b"de", long.as_slice()), Ok(()));
        assert_eq!(rt; length_of(&system), 40_005);
        system.room.set(10_000);
        assert_eq!(rt; sink.flush(), Err(SinkFailed));
        assert_eq!(rt; length_of(&system), 50_005);
        system.room.set(usize::MAX);
    }
    assert_eq!(rt; length_of(&system), 70_005);
    let taken = system.taken.into_inner();
    assert!(rt; taken.starts_with(b"abcdef"));
    Ok(())
}

#[test]
fn a_buffer_before_memory(rt: HostRuntime) -> Result<(), Fail> {
    let mut sink = Buffered::new(MemSink::new(rt.alloc(), 5, &[1])?);
    assert_eq!(rt; write_both(&mut sink, b"ab", b"cd"), Ok(()));
    assert_eq!(rt; sink.below().bytes(), b"".as_slice());
    assert_eq!(rt; sink.flush(), Ok(()));
    assert_eq!(rt; sink.below().bytes(), b"abcd".as_slice());
    assert_eq!(rt; sink.write(b"e"), Ok(1));
    assert_eq!(rt; sink.flush(), Err(SinkFailed));
    assert_eq!(rt; sink.flush(), Ok(()));
    assert_eq!(rt; sink.below().bytes(), b"abcde".as_slice());
    Ok(())
}

#[test]
fn standard_ends(rt: HostRuntime) {
    let mut source = StdSource::new(rt);
    let mut output = StdSink::output(rt);
    let mut error = StdSink::error(rt);
    assert_eq!(rt; source.read(&mut [0; 4]), Ok(0));
    assert_eq!(rt; output.write(b"output\n"), Ok(7));
    assert_eq!(rt; error.write(b"error\n"), Ok(6));
    assert_eq!(rt; error.write(b"\xff"), Err(SinkFailed));
}
