ghost use Rattle.std.specs.Prelude.{◌≡◌};

use super::*;
use gm_base::Folio;
use std::test::Fail;

fn crosses_threads<T: Send + Sync>() {}

#[test]
fn values_cross_threads() {
    crosses_threads::<Pool>();
    crosses_threads::<Freed>();
}

/// Takes the folio out of its cache, if it is there.
fn detach(pool: &mut Pool, folio: Folio) -> Result<Freed, Fail>
    ensures { pool.new.next ≡ pool.old.next }
{
    let usage = pool.usage(folio.frame).ok_or("a live folio")?;
    if usage.serial != folio.serial || !usage.cached {
        return Err("a cached folio".into());
    }
    Ok(pool.detach(folio))
}

#[test]
fn two_frames_are_used_again(rt: HostRuntime) -> Result<(), Fail> {
    let mut pool = Pool::new(rt.alloc(), 2).ok().ok_or("memory")?;
    let first = pool.take_one().ok_or("a frame")?;
    assert_eq!(rt;
        first,
        Folio {
            serial: 0,
            frame: 0
        }
    );
    let second = pool.take_one().ok_or("a frame")?;
    assert_eq!(rt;
        second,
        Folio {
            serial: 1,
            frame: 1
        }
    );
    let None = pool.take_one() else {
        return Err("no frame is free".into());
    };
    assert_eq!(rt; detach(&mut pool, first)?, Freed::Now);
    assert_eq!(rt; pool.serial(0), None);
    let third = pool.take_one().ok_or("a frame")?;
    assert_eq!(rt;
        third,
        Folio {
            serial: 2,
            frame: 0
        }
    );
    Ok(())
}

#[test]
fn a_broken_block_isnt_taken(rt: HostRuntime) -> Result<(), Fail> {
    let mut pool = Pool::new(rt.alloc(), 512).ok().ok_or("memory")?;
    let first = pool.take_one().ok_or("a frame")?;
    assert_eq!(rt;
        first,
        Folio {
            serial: 0,
            frame: 0
        }
    );
    assert_eq!(rt; pool.take_block(), None);
    assert_eq!(rt; detach(&mut pool, first)?, Freed::Now);
    let block = pool.take_block().ok_or("a block")?;
    assert_eq!(rt;
        block,
        Folio {
            serial: 1,
            frame: 0
        }
    );
    assert_eq!(rt; pool.serial(511), Some(512));
    Ok(())
}

/// The ends of the range of a pool's size: its first frame, and its first block.
#[test]
fn the_ends_of_the_frames(rt: HostRuntime) -> Result<(), Fail> {
    for (frames, one, block) in [
        (0, None, None),
        (1, Some(0), None),
        (511, Some(0), None),
        (512, Some(0), Some(0)),
        (513, Some(0), Some(0)),
        (65_536, Some(0), Some(0)),
    ] {
        let mut pool = Pool::new(rt.alloc(), frames).ok().ok_or("memory")?;
        assert_eq!(rt; pool.take_one().map(|folio| folio.frame), one, "{frames}");
        assert_eq!(rt; pool.serial(frames), None, "{frames}");
        let mut whole = Pool::new(rt.alloc(), frames).ok().ok_or("memory")?;
        assert_eq!(rt;
            whole.take_block().map(|folio| folio.frame),
            block,
            "{frames}"
        );
    }
    Ok(())
}

/// What is left after the first block: the second one, and the last frame.
#[test]
fn the_last_frames_are_given(rt: HostRuntime) -> Result<(), Fail> {
    for (frames, second, last) in [
        (512, None, None),
        (513, None, Some(512)),
        (1023, None, Some(512)),
        (1024, Some(512), None),
    ] {
        let mut pool = Pool::new(rt.alloc(), frames).ok().ok_or("memory")?;
        let first = pool.take_block().ok_or("a block")?;
        assert_eq!(rt; first.frame, 0, "{frames}");
        assert_eq!(rt;
            pool.take_block().map(|folio| folio.frame),
            second,
            "{frames}"
        );
        if second.is_none() {
            let mut rest = Pool::new(rt.alloc(), frames).ok().ok_or("memory")?;
            let block = rest.take_block().ok_or("a block")?;
            assert_eq!(rt; block.serial, 0, "{frames}");
            assert_eq!(rt; rest.take_one().map(|folio| folio.frame), last, "{frames}");
        }
    }
    Ok(())
}
