use super::*;
use crate::block::block_beside;
use gm_base::PAGE_LIMIT;
use std::test::Fail;

fn crosses_threads<T: Send + Sync>() {}

#[test]
fn types_cross_threads() {
    crosses_threads::<Radix<u64>>();
}

#[test]
fn the_ends_of_the_ranges(rt: HostRuntime) -> Result<(), Fail> {
    let last = PAGE_LIMIT - 1;
    let mut map = Radix::new(rt.alloc());
    for index in [last, 0, 513, 512, 1] {
        map.reserve(1).ok().ok_or("memory")?;
        map.insert(index, index + 7);
    }
    assert_eq!(rt; map.get(last), Some(last + 7));
    assert_eq!(rt; map.get(2), None);
    assert_eq!(rt; map.first_gap(0), 2);
    assert_eq!(rt; map.first_gap(last), PAGE_LIMIT);
    assert_eq!(rt; map.count_in(0, PAGE_LIMIT), 5);
    assert_eq!(rt; map.count_in(1, 513), 2);
    assert_eq!(rt; map.count_in(513, 1), 0);
    assert!(rt; map.has_any(1, 3) && !map.has_any(2, 512) && map.has_any(last, u64::MAX));
    assert!(rt; map.has_all(512, 514) && !map.has_all(0, 3) && !map.has_all(last, u64::MAX));
    assert_eq!(rt; map.discard(1, 514), 3);
    assert_eq!(rt; map.discard(0, PAGE_LIMIT), 2);
    assert_eq!(rt; map.get(0), None);
    Ok(())
}

#[test]
fn drains_into_a_list(rt: HostRuntime) -> Result<(), Fail> {
    let mut map = Radix::new(rt.alloc());
    map.reserve(1).ok().ok_or("memory")?;
    if map.get(3).is_none() {
        map.insert_new(3, 7);
    }
    let mut taken = Vec::with_capacity(rt.alloc(), 1)?;
    map.drain(3, 4, &mut taken);
    assert_eq!(rt; taken.as_slice(), [(3, 7)].as_slice());
    assert_eq!(rt; map.get(3), None);
    Ok(())
}

#[test]
fn blocks_are_aligned(rt: HostRuntime) -> Result<(), Fail> {
    for (low, high, first, pivot, end) in [
        (0, 1, 0, 1, 2),
        (5, 9, 0, 8, 16),
        (512, 1023, 512, 768, 1024),
        (0, PAGE_LIMIT - 1, 0, PAGE_LIMIT / 2, PAGE_LIMIT),
    ] {
        let block = block_beside(low, low + 1, high, 0, PAGE_LIMIT);
        assert_eq!(rt;
            (block.first, block.pivot, block.end),
            (first, pivot, end),
            "{low} to {high}"
        );
    }
    Ok(())
}

#[test]
fn agrees_with_an_array(rt: HostRuntime) -> Result<(), Fail> {
    let mut map = Radix::new(rt.alloc());
    let mut array = [None; 64];
    let mut seed: u64 = 1;
    for step in 0..600 {
        seed = seed
            .wrapping_mul(6_364_136_223_846_793_005)
            .wrapping_add(1_442_695_040_888_963_407);
        let index = (seed >> 33) % 64;
        if seed >> 62 == 0 {
            let hi = (index + 7).min(64);
            let mut gone: u64 = 0;
            for taken in index..hi {
                if array[taken as usize].is_some() {
                    gone = gone.wrapping_add(1);
                }
                array[taken as usize] = None;
            }
            assert_eq!(rt; map.discard(index, hi), gone);
        } else {
            map.reserve(1).ok().ok_or("memory")?;
            map.insert(index, step);
            array[index as usize] = Some(step);
        }
        let mut free: u64 = 64;
        let mut count: u64 = 0;
        for read in (0..64).rev() {
            assert_eq!(rt; map.get(read), array[read as usize]);
            if array[read as usize].is_none() {
                free = read;
            } else if read >= index {
                count = count.wrapping_add(1);
            }
            assert_eq!(rt; map.first_gap(read), free);
        }
        assert_eq!(rt; map.count_in(index, 64), count);
    }
    Ok(())
}
