use crate::{Status, run_migrate};
use gm_io::{MemorySink, MemorySource};
use std::test::Fail;

const OLD: &[u8] =
    b"gmem-history 1\nmachine frames=4 user=4 vcpus=1 callers=1 huge=off\n1 v0 get serial=0 frame=3 fresh=1\n2 v0 touch read private 0 serial=0 level=4k value=0 fill=1\nend turns=2 entries=2\n";

const OLD_TOUCH: &[u8] =
    b"gmem-history 1\nmachine frames=4 user=4 vcpus=1 callers=1 huge=off\n2 v0 touch read private 0 serial=0 level=4k value=0 fill=0\n";

const BROUGHT_UP: &[u8] =
    b"gmem-history 2\nmachine frames=4 user=4 vcpus=1 callers=1 huge=off\n1 v0 get serial=0 frame=3 fresh=1\n2 v0 touch read private 0 serial=0 frame=3 level=4k value=0 fill=1\nend turns=2 entries=2\n";

// A history of version 1: the calls of the source and of the sink that fail, the bytes that the sink may hold, the
// status and what the sink holds then.
#[test]
fn histories_are_brought_up(rt: HostRuntime) -> Result<(), Fail> {
    let alloc = rt.alloc();
    let line = b"bad line=3 cause=history\n".as_slice();
    let rows: [(&[u8], &[u64], u64, &[u64], Status, &[u8]); 6] = [
        (OLD, &[], 4096, &[], Status::Ok, BROUGHT_UP),
        (OLD_TOUCH, &[], 4096, &[], Status::BadHistory, line),
        (OLD, &[0], 4096, &[], Status::ReadFault, b""),
        (OLD, &[], 4096, &[0], Status::WriteFault, b""),
        (OLD, &[], 10, &[], Status::WriteFault, b"gmem-histo"),
        (OLD_TOUCH, &[], 9, &[], Status::WriteFault, b"bad line="),
    ];
    for (bytes, reads, capacity, writes, status, held) in rows {
        let mut source = MemorySource::new(alloc, bytes, reads).ok().ok_or("memory")?;
        let mut sink = MemorySink::new(alloc, capacity, writes)
            .ok()
            .ok_or("memory")?;
        assert_eq!(rt; run_migrate(alloc, &mut source, &mut sink), status);
        assert_eq!(rt; sink.held(), held);
    }
    Ok(())
}
