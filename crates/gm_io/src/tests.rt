use super::*;
use gm_base::Actor;
use std::test::Fail;

fn crosses_threads<T: Send + Sync>() {}

#[test]
fn values_cross_threads() {
    crosses_threads::<Failed>();
    crosses_threads::<OpenGate>();
}

#[test]
fn a_source_fails_where_it_is_told(rt: HostRuntime) -> Result<(), Fail> {
    let mut source = MemorySource::new(rt.alloc(), b"ab", &[1])
        .ok()
        .ok_or("memory")?;
    let mut into = [0u8; 2];
    assert_eq!(rt; source.take(&mut into), Ok(2));
    assert_eq!(rt; into.as_slice(), b"ab".as_slice());
    assert_eq!(rt; source.take(&mut into), Err(Failed));
    assert_eq!(rt; source.faults(), 1);
    assert_eq!(rt; source.take(&mut into), Ok(0));
    Ok(())
}

#[test]
fn a_sink_fails_where_it_is_full(rt: HostRuntime) -> Result<(), Fail> {
    let mut sink = MemorySink::new(rt.alloc(), 1, &[]).ok().ok_or("memory")?;
    assert_eq!(rt; sink.put(b"ab"), Ok(1));
    assert_eq!(rt; sink.put(b"ab"), Err(Failed));
    assert_eq!(rt; sink.faults(), 1);
    assert_eq!(rt; sink.held(), b"a".as_slice());
    let mut sure = SureSink::new(rt.alloc(), 2).ok().ok_or("memory")?;
    assert_eq!(rt; sure.put(b"ab"), Ok(2));
    assert_eq!(rt; sure.put(b"c"), Ok(1));
    assert_eq!(rt; sure.held(), b"ab".as_slice());
    Ok(())
}

#[test]
fn what_a_sink_did_not_take_waits(rt: HostRuntime) -> Result<(), Fail> {
    let mut sink = MemorySink::new(rt.alloc(), 9, &[0]).ok().ok_or("memory")?;
    let mut gathered = Gathered::new();
    assert_eq!(rt; gathered.add(&mut sink, b"gather"), Ok(()));
    assert_eq!(rt; gathered.add(&mut sink, b"ed"), Ok(()));
    assert_eq!(rt; gathered.put(&mut sink), Err(Failed));
    assert_eq!(rt; sink.held(), b"".as_slice());
    assert_eq!(rt; gathered.put(&mut sink), Ok(()));
    assert_eq!(rt; sink.held(), b"gathered".as_slice());
    assert_eq!(rt; put_all(&mut sink, b"text"), Err(Failed));
    assert_eq!(rt; sink.held(), b"gatheredt".as_slice());
    Ok(())
}

#[test]
fn short_ends_pass_on_pieces(rt: HostRuntime) -> Result<(), Fail> {
    let mut source = ShortSource::new(SureSource::new(b"abc"), 2);
    let mut into = [0u8; 9];
    for (count, piece) in [(2, b"ab".as_slice()), (1, b"c"), (0, b"")] {
        assert_eq!(rt; source.take(&mut into), Ok(count));
        assert_eq!(rt; &into[..count], piece);
    }
    let inner = MemorySink::new(rt.alloc(), 9, &[3]).ok().ok_or("memory")?;
    let mut sink = ShortSink::new(inner, 2);
    assert_eq!(rt; put_all(&mut sink, b"abc"), Ok(()));
    assert_eq!(rt; put_all(&mut sink, b"def"), Err(Failed));
    assert_eq!(rt; sink.inner().held(), b"abcde".as_slice());
    Ok(())
}

#[test]
fn std_ends_are_ends(rt: HostRuntime) -> Result<(), Fail> {
    let mut source = ReaderSource::new(b"ab".as_slice());
    let mut into = [0u8; 3];
    assert_eq!(rt; source.take(&mut into), Ok(2));
    assert_eq!(rt; source.take(&mut into), Ok(0));
    let mut sink = WriterSink::new(Vec::new(rt.alloc()));
    assert_eq!(rt; put_all(&mut sink, b"ab"), Ok(()));
    OpenGate.pass(Actor::Vcpu(0), 0);
    let mut sure = SureSource::new(b"abc");
    assert_eq!(rt; sure.take(&mut into), Ok(3));
    Ok(())
}
