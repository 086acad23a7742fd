use exchange_limits::{MAX_SESSIONS, MAX_WORKERS};

#[test]
fn sizes(rt: HostRuntime) {
    assert!(rt; MAX_WORKERS == 64 && MAX_SESSIONS == 16);
}
