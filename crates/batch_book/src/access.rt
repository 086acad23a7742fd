//! What a seat has of its exchange.

ghost use Rattle.std.specs.Prelude.{◌≡◌, ◌<◌, ◌≤◌, ◌+◌, ◌-◌, max};
ghost use Rattle.progress_word.specs.declared.limits.TheConstants.{ALL_PARTS};
ghost use Rattle.progress_word.specs.Watchers.{watcher_view};

use crate::naming::ExchangeName;
use progress_word::{ALL_PARTS, ProgressWord, Watcher};
use std::sync::ledger::Share;

/// What a seat takes part in its exchange by: parts of its ledger, and as many of its word.
#[derive(Drop)]
pub struct ExchangeAccess<L: ExchangeName> {
    pub share: Share<L>,
    pub watcher: Watcher,
    pub parts: usize,
    pub ghost some: { 0 < parts },
    pub ghost few: { parts ≤ ALL_PARTS },
    pub ghost of_ledger: { share.parts ≡ parts },
    pub ghost of_word: { watcher.parts ≡ parts },
}

impl<L: ExchangeName> ExchangeAccess<L> {
    /// An access with one of the parts, from whose watcher as much was seen.
    pub fn split(&mut self, word: &ProgressWord) -> ExchangeAccess<L>
        requires word { self.old.watcher.word ≡ word.now }
        requires parts { 1 < self.old.parts }
        ensures parts { (self.new.parts + 1 ≡ self.old.parts) × (result.parts ≡ 1) }
        ensures kept { self.new.watcher ≡
            watcher_view word.now self.old.watcher.seen self.old.watcher.raised
            (self.old.parts - 1) }
        ensures given { result.watcher ≡ watcher_view word.now self.old.watcher.seen 0 1 }
        ensures amount { self.new.share.amount ≡ self.old.share.amount }
        ensures nothing { result.share.amount ≡ 0 }
    {
        let ExchangeAccess {
            share,
            watcher,
            parts,
        } = self;
        let part = share.split_off(1, 0);
        let other = word.split(watcher);
        *parts -= 1;
        ExchangeAccess {
            share: part,
            watcher: other,
            parts: 1,
        }
    }

    /// Takes in what another access has.
    pub fn join(&mut self, word: &ProgressWord, other: ExchangeAccess<L>)
        requires all { L.parts ≡ ALL_PARTS }
        requires word { (self.old.watcher.word ≡ word.now) × (other.watcher.word ≡ word.now) }
        ensures parts { self.new.parts ≡ self.old.parts + other.parts }
        ensures watcher { self.new.watcher ≡ watcher_view word.now
            (max self.old.watcher.seen other.watcher.seen)
            (max self.old.watcher.raised other.watcher.raised)
            (self.old.parts + other.parts) }
        ensures amount { self.new.share.amount ≡ self.old.share.amount + other.share.amount }
    {
        let ExchangeAccess {
            share,
            watcher,
            parts,
        } = self;
        let ExchangeAccess {
            share: their_share,
            watcher: their_watcher,
            parts: their_parts,
        } = other;
        share.merge(their_share);
        word.join(watcher, their_watcher);
        *parts += their_parts;
    }
}
