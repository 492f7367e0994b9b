//! The lines of refusals.

use super::*;
use jr_base::{Refusal, Span};
use jr_io::{MemSink, Piece};
use std::alloc::Global;
use std::test::Fail;

/// What is written of a refusal, into that much room.
fn written(
    alloc: Global,
    source: &[u8],
    refusal: Refusal,
    room: usize,
) -> Result<(MemSink, Piece), Fail> {
    let store = Vec::with_capacity(alloc, room)?;
    let mut sink = MemSink::new(store, Vec::new(alloc));
    if source.len() > 1_048_576 {
        return Ok((sink, Piece::WriteFault));
    }
    let piece = write_refusal(source, refusal, &mut sink);
    Ok((sink, piece))
}

#[test]
fn writes_refusals(rt: HostRuntime) -> Result<(), Fail> {
    let source = b"class A {\n  int x = m;\n}\n";
    let place = Span { start: 20, end: 21 };
    let first = Span { start: 0, end: 5 };
    for (refusal, room, piece, line) in [
        (Refusal::TooLong, 100, Piece::Whole, "refused TooLong\n"),
        (Refusal::NoMain, 100, Piece::Whole, "refused NoMain\n"),
        (
            Refusal::Syntax(first),
            100,
            Piece::Whole,
            "refused Syntax at 1:1\n",
        ),
        (
            Refusal::Mismatch(place),
            100,
            Piece::Whole,
            "refused Mismatch at 2:11\n",
        ),
        (
            Refusal::Unknown(place),
            100,
            Piece::Whole,
            "refused Unknown m at 2:11\n",
        ),
        (
            Refusal::Duplicate(first),
            100,
            Piece::Whole,
            "refused Duplicate class at 1:1\n",
        ),
        (
            Refusal::Unknown(place),
            17,
            Piece::WriteFault,
            "refused Unknown m",
        ),
    ] {
        let (sink, found) = written(rt.alloc(), source, refusal, room)?;
        assert_eq!(rt; found, piece);
        assert_eq!(rt; sink.written(), line.as_bytes());
    }
    Ok(())
}
