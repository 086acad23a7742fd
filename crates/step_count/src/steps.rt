//! How many steps were taken.

ghost use Rattle.std.specs.Prelude.{◌≡◌, ◌+◌, ℕ};
ghost use Rattle.std.specs.Borrow.{ftrue};

use std::marker::{Model, Send};

/// A number that only contracts see. It takes no bytes.
#[derive(Drop)]
struct Number {
    pub ghost value: { ℕ },
}

impl Model for Number {
    ghost also_owns = { λ _. ftrue };
}

// It owns nothing.
unsafe impl Send for Number {}

impl Number {
    fn of(_count: &usize) -> Number
        ensures { result.value ≡ _count.now }
    {
        Number {}
    }

    fn plus(&self, _other: &Number) -> Number
        ensures { result.value ≡ self.now.value + _other.now.value }
    {
        Number {}
    }
}

/// How many steps were taken: a count that takes no bytes and no time, since only contracts see it.
#[derive(Drop)]
pub struct Steps {
    number: Number,
}

impl Model for Steps {
    ghost use Rattle.std.specs.Prelude.{ℕ};

    ghost Value = { ℕ };

    ghost view = { λ s. s.number.value };
}

impl Steps {
    /// None yet.
    pub fn none() -> Steps
        ensures { result ≡ 0 }
    {
        Steps {
            number: Number::of(&0),
        }
    }

    /// One step.
    pub fn tick(&mut self)
        ensures { self.new ≡ self.old + 1 }
    {
        self.tick_many(1);
    }

    /// So many steps.
    pub fn tick_many(&mut self, count: usize)
        ensures { self.new ≡ self.old + count }
    {
        self.number = self.number.plus(&Number::of(&count));
    }

    /// The steps of another worker.
    pub fn merge(&mut self, other: Steps)
        ensures { self.new ≡ self.old + other }
    {
        self.number = self.number.plus(&other.number);
    }
}
