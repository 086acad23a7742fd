//! The count is raised, and bytes pass. No call gives them out.

ghost use Rattle.std.specs.Prelude.{◌≡◌, [], ◌∷◌};

use byte_streams::{FailureCount, PassedBytes};

/// A count of two failures.
fn two_failures() -> FailureCount
    ensures { result ≡ 2 }
{
    let mut count = FailureCount::zero();
    count.raise();
    count.raise();
    count
}

/// Five, and then six.
fn two_bytes() -> PassedBytes
    ensures { result ≡ 5 ∷ 6 ∷ [] }
{
    let mut bytes = PassedBytes::none();
    bytes.add(5);
    bytes.add(6);
    bytes
}

#[test]
fn counts_are_raised_and_bytes_pass() {
    let _count = two_failures();
    let _bytes = two_bytes();
}
