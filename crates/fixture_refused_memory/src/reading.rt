//! A reader that is asked.

ghost use Rattle.std.specs.Prelude.{◌+◌, ◌≤◌, ◌<◌, ◌^◌, length};

use std::alloc::Global;
use ts_packet::Reader;

/// Feeds a piece, and again where there was no memory. Tells how it went.
fn feed(reader: &mut Reader, piece: &[u8], out: &mut Vec<[u8; 188]>) -> &'static str
    requires { length reader.old + length piece.now < 2 ^ 63 }
    ensures { length reader.new ≤ length reader.old + length piece.now }
{
    let before = (reader.kept(), out.len());
    if reader.feed(piece, out).is_ok() {
        return "at once";
    }
    let same = (reader.kept(), out.len()) == before;
    let second = reader.feed(piece, out);
    if same && second.is_ok() {
        "again"
    } else {
        "wrong"
    }
}

/// Ends the stream, and again where there was no memory. Tells how it went.
fn finish(reader: &mut Reader, out: &mut Vec<[u8; 188]>) -> &'static str {
    let before = (reader.kept(), out.len());
    if reader.finish(out).is_ok() {
        return "at once";
    }
    let same = (reader.kept(), out.len()) == before;
    let second = reader.finish(out);
    if same && second.is_ok() {
        "again"
    } else {
        "wrong"
    }
}

/// Reads a stream of few bytes that comes in two pieces.
pub(crate) fn reading<R: Print>(rt: &R, alloc: Global, stream: &[u8]) {
    if stream.len() > 2000 {
        return;
    }
    let (front, back) = stream.split_at(stream.len().min(700));
    let mut reader = Reader::new();
    let mut out = Vec::new(alloc);
    let one = feed(&mut reader, front, &mut out);
    let two = feed(&mut reader, back, &mut out);
    let end = finish(&mut reader, &mut out);
    let same = out.as_flattened() == stream;
    let _ = println!(rt; "reader: {one}, {two}, {end}, then the same bytes: {same}");
}
