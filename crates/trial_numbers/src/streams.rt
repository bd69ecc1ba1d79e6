//! Bytes in and out, with faults.
ghost use Rattle.std.specs.Prelude.{◌≡◌, ◌<◌, ◌≤◌, [], length, Some, IsOk, IfOk, IfSome, IsErrOf, OnOk, ◌++◌};
ghost use Rattle.tile_io.specs.declared.read_all_fault.ReadAllFault.TheVariants.{TooLong, Fault};

use crate::wrong::{NONE, Wrong};
use std::alloc::Global;
use std::io::Cursor;
use tile_io::failed::Failed;
use tile_io::mem_sink::MemSink;
use tile_io::mem_source::MemSource;
use tile_io::read_all_fault::ReadAllFault;
use tile_io::reading::read_all;
use tile_io::sink::Sink;
use tile_io::source::Source;
use tile_io::std_sink::StdSink;
use tile_io::std_source::StdSource;
use tile_io::steady_sink::SteadySink;
use tile_io::steady_source::SteadySource;
use tile_io::writing::write_all;
use tile_shape::no_memory::NoMemory;

/// A sink's room, how many bytes it takes a call, which call fails, and what it has taken of `tiles`.
static WRITTEN: [(usize, usize, u64, &str); 17] = [
    (5, 2, 1, ""),
    (5, 2, 2, "ti"),
    (5, 2, 3, "tile"),
    (5, 2, 4, "tiles"),
    (5, 2, 0, "tiles"),
    (0, 2, 0, ""),
    (1, 2, 0, "t"),
    (2, 2, 0, "ti"),
    (3, 2, 0, "til"),
    (4, 2, 0, "tile"),
    (9, 2, 0, "tiles"),
    (5, 1, 1, ""),
    (5, 1, 2, "t"),
    (5, 1, 3, "ti"),
    (5, 1, 4, "til"),
    (5, 1, 5, "tile"),
    (5, 1, 6, "tiles"),
];

/// Returns true if a sink takes what its row says.
fn is_taken(alloc: Global, row: &(usize, usize, u64, &str)) -> Result<bool, NoMemory> {
    let (room, a_call, failing, wanted) = row;
    if *a_call == 0 {
        return Ok(false);
    }
    let fails = [*failing].to_vec(alloc)?;
    let mut sink = MemSink::new(alloc, *room, *a_call, fails)?;
    let result = write_all(&mut sink, b"tiles");
    Ok(result.is_ok() == (wanted.len() == 5) && sink.taken() == wanted.as_bytes())
}

/// Pieces that are written to a sink with room for five bytes, two a call, and what comes of each.
static PIECES: [(&str, Result<usize, Failed>); 9] = [
    ("til", Ok(2)),
    ("til", Err(Failed)),
    ("les", Ok(2)),
    ("", Ok(0)),
    ("sx", Ok(1)),
    ("sx", Err(Failed)),
    ("", Ok(0)),
    ("sx", Err(Failed)),
    ("", Err(Failed)),
];

/// The room that a source is given at each call, and what it gives.
static ROOMS: [(usize, Option<&str>); 8] = [
    (4, None),
    (4, Some("ti")),
    (4, None),
    (0, Some("")),
    (1, Some("l")),
    (4, None),
    (4, Some("es")),
    (4, Some("")),
];

/// Notes the first piece that is written otherwise.
fn note_pieces(wrong: &mut Wrong, sink: &mut MemSink) {
    for (row, (piece, wanted)) in PIECES.iter().enumerate() {
        wrong.note("pieces", row, sink.write(piece.as_bytes()) == *wanted);
    }
    wrong.note("all pieces", 0, sink.taken() == b"tiles".as_slice());
}

/// Returns true if a source gives this in a room of at most four bytes. It fails if nothing is wanted.
fn is_given(source: &mut MemSource, room: usize, wanted: &Option<&str>) -> bool {
    let mut buf = [0; 4];
    match source.read(&mut buf[..room.min(4)]) {
        Ok(count) => Some(&buf[..count]) == wanted.map(str::as_bytes),
        Err(Failed) => wanted.is_none(),
    }
}

/// Notes the first call that gives something else.
fn note_rooms(wrong: &mut Wrong, source: &mut MemSource) {
    for (row, (room, wanted)) in ROOMS.iter().enumerate() {
        wrong.note("rooms", row, is_given(source, *room, wanted));
    }
}

// What a caller knows of two pieces written in turn to a sink in memory.
fn in_turn(sink: &mut SteadySink, first: &[u8], second: &[u8]) -> Result<(), Failed>
    ensures never_fails { IsOk result }
    ensures told { ⟦<SteadySink as Sink>⟧.taken sink.old ≡ Some [] →
        IfSome (⟦<SteadySink as Sink>⟧.taken sink.new) (λ bytes. bytes ≡ first.now ++ second.now) }
{
    write_all(sink, first)?;
    write_all(sink, second)
}

/// Returns true if a sink in memory has taken what is wanted once two pieces more are written to it.
fn takes(sink: &mut SteadySink, first: &str, second: &str, wanted: &str) -> bool {
    in_turn(sink, first.as_bytes(), second.as_bytes()).is_ok() && sink.taken() == wanted.as_bytes()
}

/// Returns true if it has taken as many bytes as it has room for, of more pieces.
fn is_filled(alloc: Global) -> Result<bool, NoMemory> {
    let mut steady = SteadySink::new(alloc, 5)?;
    Ok(takes(&mut steady, "ti", "le", "tile") && takes(&mut steady, "up", "s", "tiles"))
}

/// What comes of four pieces that are written to a sink over four bytes.
fn over_four_bytes() -> [Result<usize, Failed>; 4] {
    let mut sink = StdSink::new(Cursor::new([0; 4]));
    let nothing = sink.write(b"");
    let four = sink.write(b"tiles");
    let nothing_more = sink.write(b"");
    [nothing, four, nothing_more, sink.write(b"s")]
}

/// Returns true if a vector has what is written to a sink over it.
fn is_over_a_vector(alloc: Global) -> bool {
    let mut out = Vec::new(alloc);
    let written = write_all(&mut StdSink::new(&mut out), b"tiles");
    written.is_ok() && out.as_slice() == b"tiles".as_slice()
}

/// Returns true if a source gives this piece at a call that asks for two bytes.
fn gives<S: Source>(source: &mut S, wanted: &str) -> bool {
    let mut buf = [0; 2];
    match source.read(&mut buf) {
        Ok(count) => &buf[..count] == wanted.as_bytes(),
        Err(Failed) => false,
    }
}

/// What sources of `tiles` give, two bytes a call.
static GIVEN: [&str; 4] = ["ti", "le", "s", ""];

/// Notes the first piece that other sources give otherwise.
fn note_sources(wrong: &mut Wrong, steady: &mut SteadySource) {
    let mut over_std = StdSource::new(b"tiles".as_slice());
    for (row, wanted) in GIVEN.iter().enumerate() {
        wrong.note("steady source", row, gives(steady, wanted));
        wrong.note("source of std", row, gives(&mut over_std, wanted));
    }
}

/// The number of bytes that are asked for, the call that fails, and the fault of reading `tiles`, two bytes a
/// call. Then comes what is read after it. If there is no fault, `tiles` is read.
type Reading = (usize, u64, Option<ReadAllFault>, &'static str);

static READ: [Reading; 13] = [
    (5, 1, Some(ReadAllFault::Fault), "tiles"),
    (5, 2, Some(ReadAllFault::Fault), "les"),
    (5, 3, Some(ReadAllFault::Fault), "s"),
    (5, 4, Some(ReadAllFault::Fault), ""),
    (5, 5, None, ""),
    (0, 0, Some(ReadAllFault::TooLong), "iles"),
    (1, 0, Some(ReadAllFault::TooLong), "les"),
    (2, 0, Some(ReadAllFault::TooLong), "es"),
    (3, 0, Some(ReadAllFault::TooLong), "s"),
    (4, 0, Some(ReadAllFault::TooLong), ""),
    (5, 0, None, ""),
    (6, 0, None, ""),
    (usize::MAX, 0, None, ""),
];

/// Returns true if `tiles` was read.
fn is_tiles(read: &Result<Vec<u8>, ReadAllFault>) -> bool {
    match read {
        Ok(bytes) => bytes.as_slice() == b"tiles".as_slice(),
        Err(_) => false,
    }
}

/// Returns true if the source has this rest.
fn leaves(alloc: Global, source: &mut MemSource, rest: &str) -> Result<bool, ReadAllFault> {
    let read = read_all(alloc, source, 5)?;
    Ok(read.as_slice() == rest.as_bytes())
}

/// Returns true if the reading of a row ends as it says.
fn is_read(alloc: Global, row: &Reading) -> Result<bool, ReadAllFault> {
    let (most, failing, fault, rest) = row;
    let fails = [*failing].to_vec(alloc)?;
    let mut source = MemSource::new(b"tiles".to_vec(alloc)?, 2, fails);
    let read = read_all(alloc, &mut source, *most);
    if fault.is_none() {
        return Ok(is_tiles(&read));
    }
    Ok(read.err() == *fault && leaves(alloc, &mut source, rest)?)
}

// States what a caller knows of reading a source that reports its bytes and never fails.
fn read_whole(
    alloc: Global,
    source: &mut SteadySource,
    most: usize,
) -> Result<Vec<u8>, ReadAllFault>
    ensures whole { IfOk result (λ read. read.items ≡ source.old) }
    ensures nothing_left { OnOk result (source.new ≡ []) }
    ensures fits { OnOk result (length source.old ≤ most) }
    ensures too_long { IsErrOf result TooLong → most < length source.old }
    ensures never_fails { IsErrOf result Fault → ⊥ }
{
    read_all(alloc, source, most)
}

/// Returns how many of these bytes are read, and the fault if one fewer is asked for.
fn read_long(alloc: Global, length: usize) -> Result<(usize, Option<ReadAllFault>), ReadAllFault> {
    let mut source = SteadySource::new(vec![in alloc; 7u8; length]?);
    let read = read_whole(alloc, &mut source, length)?;
    let count = read.len();
    if length == 0 {
        return Ok((count, None));
    }
    let mut source = SteadySource::new(read);
    Ok((count, read_whole(alloc, &mut source, length - 1).err()))
}

/// Returns true if all these bytes are read, and are too long if one fewer is asked for.
fn is_read_long(alloc: Global, length: usize) -> Result<bool, ReadAllFault> {
    let fault = if length == 0 {
        None
    } else {
        Some(ReadAllFault::TooLong)
    };
    Ok(read_long(alloc, length)? == (length, fault))
}

/// Lengths about that of a piece.
static LENGTHS: [usize; 7] = [0, 1, 4095, 4096, 4097, 8192, 10000];

/// Returns true if a source of std is read to its end.
fn is_read_over_std(alloc: Global) -> bool {
    is_tiles(&read_all(alloc, &mut StdSource::new(b"tiles".as_slice()), 5))
}

/// Notes the first row that is written or read otherwise.
fn note_rows(alloc: Global, wrong: &mut Wrong) {
    for (row, written) in WRITTEN.iter().enumerate() {
        wrong.note("written", row, is_taken(alloc, written).unwrap_or(false));
    }
    for (row, reading) in READ.iter().enumerate() {
        wrong.note("read", row, is_read(alloc, reading).unwrap_or(false));
    }
    for (row, length) in LENGTHS.iter().enumerate() {
        let is_right = is_read_long(alloc, *length);
        wrong.note("lengths", row, is_right.unwrap_or(false));
    }
    wrong.note("is_filled", 0, is_filled(alloc).unwrap_or(false));
    wrong.note("is_over_a_vector", 0, is_over_a_vector(alloc));
    wrong.note("is_read_over_std", 0, is_read_over_std(alloc));
    let over_four = over_four_bytes() == [Ok(0), Ok(4), Ok(0), Err(Failed)];
    wrong.note("over_four_bytes", 0, over_four);
}

/// Notes the first piece that streams in memory write or give otherwise. The sink fails at calls 2 and 9, and
/// the source at calls 1, 3 and 6.
fn note_streams(alloc: Global, wrong: &mut Wrong) -> Result<(), NoMemory> {
    note_rooms(wrong, &mut five_fails(alloc)?);
    note_sources(wrong, &mut steady_tiles(alloc)?);
    note_pieces(wrong, &mut two_fails(alloc)?);
    Ok(())
}

/// A source of `tiles`, two bytes a call, of whose calls five fail.
fn five_fails(alloc: Global) -> Result<MemSource, NoMemory> {
    let fails = [6, 1, 3, 0, 3].to_vec(alloc)?;
    Ok(MemSource::new(b"tiles".to_vec(alloc)?, 2, fails))
}

/// A source of `tiles` that never fails.
fn steady_tiles(alloc: Global) -> Result<SteadySource, NoMemory> {
    Ok(SteadySource::new(b"tiles".to_vec(alloc)?))
}

/// A sink with room for five bytes, two a call, of whose calls two fail.
fn two_fails(alloc: Global) -> Result<MemSink, NoMemory> {
    MemSink::new(alloc, 5, 2, [2, 9].to_vec(alloc)?)
}

/// The first row that comes out otherwise.
fn first_wrong(alloc: Global) -> Wrong {
    let mut wrong = NONE;
    note_rows(alloc, &mut wrong);
    let is_made = note_streams(alloc, &mut wrong).is_ok();
    wrong.note("streams", 0, is_made);
    wrong
}

#[test]
fn streams(rt: HostRuntime) {
    first_wrong(rt.alloc()).assert_none(&rt);
}
