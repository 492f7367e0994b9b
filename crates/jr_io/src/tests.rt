//! What no clause says: that calls succeed with ample memory, and that a fault in mid-stream is answered.

use super::*;
use std::alloc::{AllocError, Global};
use std::io;
use std::io::{ErrorKind, Read, Write};
use std::test::Fail;

#[test]
fn reads_to_the_end(rt: HostRuntime) -> Result<(), Fail> {
    let fault = Err(ReadFail::ReadFault);
    for (length, limit, failing, expected) in [
        (0, 0, 0, Ok(0)),
        (3, 3, 0, Ok(3)),
        (4, 3, 0, Err(ReadFail::TooLong)),
        (200_000, 200_000, 0, Ok(200_000)),
        (200_001, 200_000, 0, Err(ReadFail::TooLong)),
        (3, 3, 1, fault),
        (3, 3, 2, fault),
        (3, 3, 3, Ok(3)),
        (200_000, 200_000, 5, fault),
    ] {
        let bytes = counting(rt.alloc(), length)?;
        let mut source = MemSource::new(bytes, vec![in rt.alloc(); failing]?);
        let found = read_all(rt.alloc(), &mut source, limit);
        if let Ok(found) = &found {
            let bytes = counting(rt.alloc(), length)?;
            assert_eq!(rt; found.as_slice(), bytes.as_slice());
        }
        assert_eq!(rt; found.map(|bytes| bytes.len()), expected, "{length} bytes");
    }
    Ok(())
}

#[test]
fn writes_pieces(rt: HostRuntime) -> Result<(), Fail> {
    for (room, failing, written, last) in [
        (5, 0, "abcde", Piece::Whole),
        (4, 0, "ab", Piece::WriteFault),
        (5, 1, "cde", Piece::Whole),
        (5, 2, "ab", Piece::WriteFault),
        (5, 3, "abcde", Piece::Whole),
    ] {
        let store = Vec::with_capacity(rt.alloc(), room)?;
        let mut sink = MemSink::new(store, vec![in rt.alloc(); failing]?);
        write_piece(&mut sink, b"ab");
        assert_eq!(rt; write_piece(&mut sink, b""), Piece::Whole);
        assert_eq!(rt; write_piece(&mut sink, b"cde"), last);
        assert_eq!(rt; sink.written(), written.as_bytes());
    }
    Ok(())
}

// A reader and a writer of a few bytes a call, one of whose calls fails.
#[derive(Drop)]
struct Drip<T> {
    inner: T,
    calls: u32,
    failing: u32,
}

impl<T> Drip<T> {
    fn fails(&mut self) -> bool {
        self.calls = self.calls.wrapping_add(1);
        self.calls == self.failing
    }
}

impl<R: Read> Read for Drip<R> {
    fn read(&mut self, buf: &mut [u8]) -> io::Result<usize> {
        if self.fails() {
            return Err(io::Error::from(ErrorKind::BrokenPipe));
        }
        let length = buf.len().min(7);
        self.inner.read(&mut buf[..length])
    }
}

impl<W: Write> Write for Drip<W> {
    fn write(&mut self, buf: &[u8]) -> io::Result<usize> {
        if self.fails() {
            return Err(io::Error::from(ErrorKind::BrokenPipe));
        }
        self.inner.write(&buf[..buf.len().min(7)])
    }

    fn flush(&mut self) -> io::Result<()> {
        self.inner.flush()
    }
}

#[test]
fn reads_from_std(rt: HostRuntime) -> Result<(), Fail> {
    let text = counting(rt.alloc(), 20)?;
    for failing in 0..6 {
        let reader = Drip {
            inner: text.as_slice(),
            calls: 0,
            failing,
        };
        let found = read_all(rt.alloc(), &mut StdSource::new(reader), 20);
        match failing {
            1..=4 => assert_eq!(rt; found.map(|bytes| bytes.len()), Err(ReadFail::ReadFault)),
            _ => assert_eq!(rt; found.expect(&rt, "no fault").as_slice(), text.as_slice()),
        }
    }
    Ok(())
}

#[test]
fn writes_to_std(rt: HostRuntime) -> Result<(), Fail> {
    use Piece::{Whole, WriteFault};
    for (length, failing, piece, finish, handed_on) in [
        (20, 0, Whole, Whole, 20),
        // What a failed finish leaves goes out as the sink is dropped.
        (20, 2, Whole, WriteFault, 20),
        (20_000, 0, Whole, Whole, 20_000),
        (20_000, 3, WriteFault, Whole, 14),
    ] {
        let mut written = Vec::new(rt.alloc());
        let writer = Drip {
            inner: &mut written,
            calls: 0,
            failing,
        };
        let mut sink = StdSink::new(rt.alloc(), writer)?;
        let text = counting(rt.alloc(), length)?;
        assert_eq!(rt; write_piece(&mut sink, text.as_slice()), piece);
        assert_eq!(rt; sink.finish(), finish);
        drop(sink);
        assert_eq!(rt;
            written.as_slice(),
            counting(rt.alloc(), handed_on)?.as_slice()
        );
    }
    Ok(())
}

// So many bytes, the numbers from 0 to 250 over and over.
fn counting(alloc: Global, length: usize) -> Result<Vec<u8>, AllocError> {
    (0..length).map(|i| (i % 251) as u8).collect(alloc)
}
