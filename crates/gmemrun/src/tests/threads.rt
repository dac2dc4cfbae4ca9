use crate::{Status, run_threads};
use gm_io::{OpenGate, SureSink, SureSource};
use std::test::Fail;

const A_PRIVATE_READ: &[u8] =
    b"machine frames=4 user=4 vcpus=1 callers=0 huge=off\nv0 read private 0\nturn v0 2\n";

const ITS_HISTORY: &[u8] =
    b"gmem-history 2\nmachine frames=4 user=4 vcpus=1 callers=0 huge=off\n1 v0 enter\n2 v0 miss read private 0\n3 v0 sample at=2\n3 v0 look at=2 slot=- attr=shared file=-\n4 v0 exit reason=39 errno=14 flags=8 gpa=0 size=4096\n5 v0 gone\nend turns=5 entries=6\n";

// A vCPU that is alone takes its turns in one order, and all of them, whatever turns the script has.
#[test]
fn one_vcpu_alone(rt: HostRuntime) -> Result<(), Fail> {
    let alloc = rt.alloc();
    let mut source = SureSource::new(A_PRIVATE_READ);
    let mut sink = SureSink::new(alloc, 4096).ok().ok_or("memory")?;
    assert_eq!(rt;
        run_threads(&rt, alloc, &mut source, &mut sink, &OpenGate),
        Status::Ok
    );
    assert_eq!(rt; sink.held(), ITS_HISTORY);
    Ok(())
}
