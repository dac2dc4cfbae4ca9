use crate::{Status, run_steps};
use gm_io::{SureSink, SureSource};
use std::alloc::Global;
use std::test::Fail;

/// A call that makes a slot and a read in it, with all their turns: 114 bytes.
pub const ONE_READ: &[u8] = b"machine frames=4 user=4 vcpus=1 callers=1 huge=off
c0 region 0 0 0 16384 0 0 0
v0 read shared 0
turn c0
turn v0 8
";

/// The history of `ONE_READ`: 412 bytes.
pub const ONE_READ_TEXT: &[u8] = b"gmem-history 2
machine frames=4 user=4 vcpus=1 callers=1 huge=off
1 c0 judge region 0 0 0 16384 0 0 0
1 c0 change slot 0 base=0 pages=4 user=0 flags=0 file=- index=0
1 c0 answer ok=0
2 v0 enter
3 v0 miss read shared 0
4 v0 sample at=5
5 v0 look at=6 slot=0 attr=shared file=-
6 v0 get user=0
7 v0 install page=0 level=4k
8 v0 enter
9 v0 touch read shared 0 user=0 level=4k value=0 fill=10
end turns=9 entries=11
";

/// What a script comes to over ends that never fail: the status, and what was written.
pub fn ran(alloc: Global, script: &[u8]) -> Result<(Status, Vec<u8>), Fail> {
    let mut source = SureSource::new(script);
    let mut sink = SureSink::new(alloc, 4096).ok().ok_or("memory")?;
    let status = run_steps(alloc, &mut source, &mut sink);
    Ok((status, Vec::from_slice(alloc, sink.held())?))
}
