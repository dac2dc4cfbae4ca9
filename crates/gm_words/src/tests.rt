use super::*;
use gm_base::MOST_FRAMES;
use std::test::Fail;

fn crosses_threads<T: Send + Sync>() {}

#[test]
fn values_cross_threads() {
    crosses_threads::<Bank>();
}

#[test]
fn a_word_is_written_and_cleared(rt: HostRuntime) -> Result<(), Fail> {
    let mut bank = Bank::new(rt.alloc(), 1).ok().ok_or("memory")?;
    bank.write(0, 511, 9);
    assert_eq!(rt; bank.read(0, 511), 9);
    assert_eq!(rt; bank.read(0, 0), 0);
    bank.clear(0);
    assert_eq!(rt; bank.read(0, 511), 0);
    Ok(())
}

#[test]
fn the_last_page_of_the_largest_bank(rt: HostRuntime) -> Result<(), Fail> {
    let last = MOST_FRAMES - 1;
    let mut bank = Bank::new(rt.alloc(), MOST_FRAMES).ok().ok_or("memory")?;
    let mut other = Bank::new(rt.alloc(), 1).ok().ok_or("memory")?;
    other.write(0, 1, u64::MAX);
    bank.copy(1, &other, 0);
    assert_eq!(rt; bank.read(1, 1), u64::MAX);
    assert_eq!(rt; bank.read(last, 511), 0);
    other.copy(0, &bank, last);
    assert_eq!(rt; other.read(0, 1), 0);
    bank.write(last, 511, 7);
    assert_eq!(rt; bank.read(last, 511), 7);
    assert_eq!(rt; (bank.read(1, 1), bank.read(0, 1)), (u64::MAX, 0));
    bank.clear(1);
    assert_eq!(rt; (bank.read(1, 1), bank.read(last, 511)), (0, 7));
    Ok(())
}
