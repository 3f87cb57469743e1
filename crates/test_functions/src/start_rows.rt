use crate::same::assert_same;
use sessions::{StartBarrier, Started};
use std::time::Duration;

/// How many milliseconds the rows wait for one more thread.
const SHORT: u64 = 10;

#[test]
fn a_start_barrier_that_is_one_short(rt: HostRuntime) {
    let barrier = StartBarrier::new();
    barrier.arrive(&rt);
    barrier.arrive(&rt);
    for (threads, started) in [(2, Started::All), (3, Started::Missing)] {
        assert_same(
            &rt,
            barrier.wait_for(&rt, threads, Duration::from_millis(SHORT)),
            started,
        );
    }
    drop(barrier);
}
