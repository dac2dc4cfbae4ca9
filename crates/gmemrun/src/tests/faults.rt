use super::samples::{ONE_READ, ONE_READ_TEXT};
use crate::{Status, run_steps};
use gm_io::{MemorySink, MemorySource, ShortSink, ShortSource, SureSink, SureSource};
use std::alloc::Global;
use std::process::Abort;
use std::test::Fail;

#[test]
fn faults_and_ends(rt: HostRuntime) -> Result<(), Fail> {
    let alloc = rt.alloc();
    // The source is asked twice: for the script, and for what comes after it.
    for call in 0..2u64 {
        let mut source = MemorySource::new(alloc, ONE_READ, &[call])
            .ok()
            .ok_or("memory")?;
        let mut sink = MemorySink::new(alloc, 4096, &[]).ok().ok_or("memory")?;
        assert_eq!(rt; run_steps(alloc, &mut source, &mut sink), Status::ReadFault);
        assert_eq!(rt; sink.held(), b"".as_slice());
    }
    // The sink is asked once.
    let mut source = MemorySource::new(alloc, ONE_READ, &[])
        .ok()
        .ok_or("memory")?;
    let mut sink = MemorySink::new(alloc, 4096, &[0]).ok().ok_or("memory")?;
    assert_eq!(rt;
        run_steps(alloc, &mut source, &mut sink),
        Status::WriteFault
    );
    assert_eq!(rt; sink.held(), b"".as_slice());
    let mut source = MemorySource::new(alloc, ONE_READ, &[])
        .ok()
        .ok_or("memory")?;
    let mut sink = MemorySink::new(alloc, 10, &[]).ok().ok_or("memory")?;
    assert_eq!(rt;
        run_steps(alloc, &mut source, &mut sink),
        Status::WriteFault
    );
    assert_eq!(rt; sink.held(), b"gmem-histo".as_slice());
    let long = vec![in alloc; b'#'; 16_777_217]?;
    let mut source = SureSource::new(&long);
    let mut sink = SureSink::new(alloc, 4096).ok().ok_or("memory")?;
    assert_eq!(rt; run_steps(alloc, &mut source, &mut sink), Status::TooLong);
    assert_eq!(rt; sink.held(), b"".as_slice());
    Ok(())
}

// A script that is bad in its first line: the calls of the source and of the sink that fail, the bytes that the sink
// may hold, the status and what the sink holds then. The source is asked twice, and the sink as often as it has to be.
#[test]
fn a_bad_line_is_told_after_the_end(rt: HostRuntime) -> Result<(), Fail> {
    let alloc = rt.alloc();
    let line = b"bad line=1 cause=machine\n".as_slice();
    let rows: [(&[u64], u64, &[u64], Status, &[u8]); 4] = [
        (&[], 25, &[1], Status::BadScript, line),
        (&[1], 25, &[], Status::ReadFault, b""),
        (&[], 24, &[], Status::WriteFault, &line[..24]),
        (&[], 25, &[0], Status::WriteFault, b""),
    ];
    for (reads, capacity, writes, status, held) in rows {
        let mut source = MemorySource::new(alloc, b"fly\n", reads)
            .ok()
            .ok_or("memory")?;
        let mut sink = MemorySink::new(alloc, capacity, writes)
            .ok()
            .ok_or("memory")?;
        assert_eq!(rt; run_steps(alloc, &mut source, &mut sink), status);
        assert_eq!(rt; sink.held(), held);
    }
    Ok(())
}

// How much ends in memory take or give at a time.
#[derive(Clone, Copy)]
enum Pieces {
    Whole,
    Bytes,
}

// What the script comes to over these ends: the status, and what the sink holds.
fn ran_whole(
    alloc: Global,
    mut source: MemorySource,
    mut sink: MemorySink,
) -> Result<(Status, Vec<u8>), Fail> {
    let status = run_steps(alloc, &mut source, &mut sink);
    Ok((status, Vec::from_slice(alloc, sink.held())?))
}

// The same, a byte at a time.
fn ran_by_bytes(
    alloc: Global,
    source: MemorySource,
    sink: MemorySink,
) -> Result<(Status, Vec<u8>), Fail> {
    let mut source = ShortSource::new(source, 1);
    let mut sink = ShortSink::new(sink, 1);
    let status = run_steps(alloc, &mut source, &mut sink);
    Ok((status, Vec::from_slice(alloc, sink.inner().held())?))
}

// What the script comes to where these calls of the ends fail.
fn ran_over(
    alloc: Global,
    pieces: Pieces,
    reads: &[u64],
    writes: &[u64],
) -> Result<(Status, Vec<u8>), Fail> {
    let source = MemorySource::new(alloc, ONE_READ, reads)
        .ok()
        .ok_or("memory")?;
    let sink = MemorySink::new(alloc, 4096, writes).ok().ok_or("memory")?;
    match pieces {
        Pieces::Whole => ran_whole(alloc, source, sink),
        Pieces::Bytes => ran_by_bytes(alloc, source, sink),
    }
}

// Each of the source's first calls fails once.
fn each_read_fails(rt: &impl Abort, alloc: Global, pieces: Pieces, calls: u64) -> Result<(), Fail> {
    for call in 0..calls {
        let (status, held) = ran_over(alloc, pieces, &[call], &[])?;
        assert_eq!(rt; status, Status::ReadFault, "read {call}");
        assert_eq!(rt; held.as_slice(), b"".as_slice(), "read {call}");
    }
    Ok(())
}

// Each of the sink's first calls fails once: it has what the calls before gave it, a byte each.
fn each_write_fails(
    rt: &impl Abort,
    alloc: Global,
    pieces: Pieces,
    calls: u64,
) -> Result<(), Fail> {
    for call in 0..calls {
        let (status, held) = ran_over(alloc, pieces, &[], &[call])?;
        let front = ONE_READ_TEXT
            .get(..call as usize)
            .ok_or("a front of the text")?;
        assert_eq!(rt; status, Status::WriteFault, "write {call}");
        assert_eq!(rt; held.as_slice(), front, "write {call}");
    }
    Ok(())
}

// The calls of the source: whole, one for the script and one for what comes after it; by bytes, one for each byte and
// one for what comes after. One call more doesn't come, so a failure of that changes nothing.
#[test]
fn each_call_of_a_source_fails(rt: HostRuntime) -> Result<(), Fail> {
    let alloc = rt.alloc();
    for (pieces, calls) in [(Pieces::Whole, 2), (Pieces::Bytes, 115)] {
        each_read_fails(&rt, alloc, pieces, calls)?;
        let (status, held) = ran_over(alloc, pieces, &[calls], &[])?;
        assert_eq!(rt; status, Status::Ok);
        assert_eq!(rt; held.as_slice(), ONE_READ_TEXT);
    }
    Ok(())
}

// The calls of the sink: whole, one; by bytes, one for each byte of the text. One call more doesn't come.
#[test]
fn each_call_of_a_sink_fails(rt: HostRuntime) -> Result<(), Fail> {
    let alloc = rt.alloc();
    for (pieces, calls) in [(Pieces::Whole, 1), (Pieces::Bytes, 412)] {
        each_write_fails(&rt, alloc, pieces, calls)?;
        let (status, held) = ran_over(alloc, pieces, &[], &[calls])?;
        assert_eq!(rt; status, Status::Ok);
        assert_eq!(rt; held.as_slice(), ONE_READ_TEXT);
    }
    Ok(())
}

#[test]
fn ends_of_single_bytes(rt: HostRuntime) -> Result<(), Fail> {
    let (status, held) = ran_over(rt.alloc(), Pieces::Bytes, &[], &[])?;
    assert_eq!(rt; status, Status::Ok);
    assert_eq!(rt; held.as_slice(), ONE_READ_TEXT);
    Ok(())
}
