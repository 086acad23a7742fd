//! A law of what a notice is told. It makes no call.

ghost use Rattle.std.specs.Prelude.{◌≡◌, Bool, true, ℕ, suc};
ghost use Rattle.setting_runner.specs.Runs.{ToldUpTo};

use crate::notice::Notice;

/// What holds once a notice was told 0, and still holds after each number that is told next, holds
/// at the end; it may speak of the notice as it was before. And the last number told is that of the
/// settings that are done.
pub fn told<N: Notice>()
    ensures kept { (a : N) (holds : N → ℕ → Bool) →
        ((b : N) → N.hears a 0 b → holds b 0 ≡ true) →
        ((b c : N) (k : ℕ) → holds b k ≡ true → N.hears b (suc k) c → holds c (suc k) ≡ true) →
        (b : N) (k : ℕ) → ToldUpTo N.hears a k b → holds b k ≡ true }
    ensures last { (a b : N) (k : ℕ) → ToldUpTo N.hears a k b → (m : N) × N.hears m k b }
{}
