use super::*;
use std::test::Fail;

fn crosses_threads<T: Send + Sync>() {}

#[test]
fn values_cross_threads() {
    crosses_threads::<Access>();
    crosses_threads::<Actor>();
    crosses_threads::<Command>();
    crosses_threads::<Errno>();
    crosses_threads::<Ioctl>();
    crosses_threads::<Leaf>();
    crosses_threads::<NoMemory>();
    crosses_threads::<Page>();
    crosses_threads::<Setup>();
    crosses_threads::<Span>();
    crosses_threads::<Turn>();
}

#[test]
fn the_ends_of_the_ranges(rt: HostRuntime) -> Result<(), Fail> {
    for (number, is_page) in [
        (0, true),
        (PAGE_LIMIT - 1, true),
        (PAGE_LIMIT, false),
        (u64::MAX, false),
    ] {
        assert_eq!(rt; Page::new(number).is_some(), is_page, "{number}");
    }
    for (lo, hi, is_span) in [
        (0, 0, false),
        (5, 3, false),
        (0, PAGE_LIMIT, true),
        (PAGE_LIMIT - 1, PAGE_LIMIT, true),
        (0, PAGE_LIMIT + 1, false),
    ] {
        assert_eq!(rt; Span::new(lo, hi).is_some(), is_span, "{lo} to {hi}");
    }
    Ok(())
}
