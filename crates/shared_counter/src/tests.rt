//! Four threads over split seats, and each call of the lock once.
use crate::callers::count_by_four;
use crate::counter::{Add, Counter, Entry, OverLimit};
use std::test::Fail;
use turn_lock::Shared;

// The replies of one caller rise.
fn is_rising(entries: &[Entry]) -> bool {
    let mut last = 0;
    for entry in entries {
        if entry.1 <= last {
            return false;
        }
        last = entry.1;
    }
    true
}

#[test]
fn four_threads_make_one_history(rt: HostRuntime) -> Result<(), Fail> {
    let start = Counter {
        value: 0,
        limit: 1_000_000,
    };
    let tally = count_by_four(&rt, rt.alloc(), start, 1, 2_500)?;
    assert_eq!(rt; tally.counter.value, 10_000);
    assert_eq!(rt; tally.entries, 10_000);
    let mut seen = Vec::new(rt.alloc());
    for _ in 0..10_000 {
        seen.push(0u8)?;
    }
    for list in [&tally.first, &tally.second, &tally.third, &tally.fourth] {
        assert_eq!(rt; list.len(), 2_500);
        assert!(rt; is_rising(list.as_slice()));
        for entry in list {
            let place = entry.1;
            assert!(rt; 0 < place && place <= 10_000);
            if let Some(count) = seen.get_mut(place as usize - 1) {
                *count = count.saturating_add(1);
            }
        }
    }
    assert!(rt; seen.as_slice().iter().all(|count| *count == 1));
    Ok(())
}

#[test]
fn acts_above_the_limit_are_refused(rt: HostRuntime) -> Result<(), Fail> {
    let start = Counter {
        value: 90,
        limit: 100,
    };
    let tally = count_by_four(&rt, rt.alloc(), start, 3, 10)?;
    let made = tally.first.len() + tally.second.len() + tally.third.len() + tally.fourth.len();
    assert_eq!(rt; made, 3);
    assert_eq!(rt; tally.entries, 3);
    assert_eq!(rt; tally.counter.value, 99);
    Ok(())
}

#[test]
fn each_call_once(rt: HostRuntime) -> Result<(), Fail> {
    let start = Counter { value: 5, limit: 9 };
    let (shared, mut seat) = Shared::new(rt.alloc(), start)?;
    assert_eq!(rt; seat.parts(), 1 << 63);
    assert_eq!(rt; shared.act(&rt, &mut seat, &Add { by: 3 }), Ok(8));
    assert_eq!(rt; shared.act(&rt, &mut seat, &Add { by: 2 }), Err(OverLimit));
    assert_eq!(rt; seat.refused(), (1, Some(OverLimit)));
    let mut other = shared.split(&mut seat, 7)?;
    assert_eq!(rt; other.parts(), 7);
    assert_eq!(rt; seat.parts(), (1 << 63) - 7);
    assert_eq!(rt; other.refused(), (0, None));
    assert_eq!(rt; shared.act(&rt, &mut other, &Add { by: 1 }), Ok(9));
    shared.join(&mut seat, other);
    assert_eq!(rt; seat.parts(), 1 << 63);
    assert_eq!(rt; seat.refused(), (1, Some(OverLimit)));
    let (counter, entries) = shared.close(&rt, seat);
    assert_eq!(rt; counter, Counter { value: 9, limit: 9 });
    assert_eq!(rt; entries, 2);
    Ok(())
}
