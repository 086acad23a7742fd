//! The pairs of a setting, by their initiators.

ghost use Rattle.std.specs.Prelude.{◌≡◌, ◌≤◌, ◌<◌, ◌+◌, ◌++◌, ◌∷◌, ◌↔◌, ℕ, [], IsTrue, length, All};
ghost use Rattle.std.specs.Slice.Iter.{iter_rest};
ghost use Rattle.batch.specs.Batches.{IsBatch};
ghost use Rattle.crossbar.specs.Pairs.{ArePairs, room_of, switch_of};
ghost use Rattle.crossbar.specs.declared.chip.Wiring.{Wiring};
ghost use Rattle.link_graph.specs.Uses.{IsMatching};
ghost use Rattle.switch_settings.specs.Racks.{HasModulesOf};
ghost use Rattle.switch_settings.specs.Sending.{in_order};
ghost use Rattle.switch_settings.specs.Settings.{setting_pairs};
ghost use Rattle.switch_settings.specs.Tables.{table_pairs};

use crate::numbers::transfer_of;
use crate::short_list::{Blank, ShortList};
use batch::{Batch, MAX_MODULES};
use crossbar::Pair;
use std::marker::Model;
use std::slice;

impl Blank for Pair {
    ghost blank = { record { initiator = 0; responder = 0 } };

    fn blank() -> Pair {
        Pair {
            initiator: 0,
            responder: 0,
        }
    }
}

/// The pairs of a setting by ascending initiators, at most one of each module. Contracts see the
/// list.
#[derive(Clone, Copy)]
pub struct PairList {
    pairs: ShortList<Pair>,
}

impl Model for PairList {
    ghost use Rattle.std.specs.Prelude.{List};
    ghost use Rattle.crossbar.specs.declared.pair.Pair.{Pair};

    ghost Value = { List Pair };

    ghost view = { λ list. list.pairs };

    ghost inverse = { λ pairs. record { pairs = pairs } };
}

impl PairList {
    /// No pairs.
    fn none() -> PairList
        ensures { result ≡ [] }
    {
        PairList {
            pairs: ShortList::new(),
        }
    }

    /// How many pairs there are, at most 32.
    pub fn len(&self) -> usize
        ensures number { result ≡ length self.now }
        ensures few { result ≤ MAX_MODULES }
    {
        self.as_slice().len()
    }

    /// Whether there is no pair.
    pub fn is_empty(&self) -> bool
        ensures { IsTrue result ↔ (self.now ≡ []) }
    {
        self.as_slice().is_empty()
    }

    /// The pairs, in order.
    pub fn iter(&self) -> slice::Iter<'_, Pair>
        ensures { iter_rest result ≡ self.now }
    {
        self.as_slice().iter()
    }

    /// The pairs, in order.
    pub fn as_slice(&self) -> &[Pair]
        ensures pairs { result.now ≡ self.now }
        ensures few { length self.now ≤ MAX_MODULES }
    {
        self.pairs.as_slice()
    }

    /// Puts the pair of an initiator after the others, if it has a responder.
    fn put(&mut self, initiator: usize, responder: Option<u8>)
        requires room { length self.old < MAX_MODULES }
        requires initiator { initiator < MAX_MODULES }
        ensures pairs { self.new ≡ self.old ++ table_pairs initiator (responder ∷ []) }
        ensures count { length self.new ≤ length self.old + 1 }
    {
        if let Some(responder) = responder {
            let initiator = initiator as u8;
            self.pairs.push(Pair {
                initiator,
                responder,
            });
        }
    }

    /// The pairs of the transfers of a setting, by their initiators: what [`crate::put_setting`]
    /// and [`crate::put_change`] take.
    ///
    /// The numbers have to be those of transfers of the batch, of which no two want one end of a
    /// module's link, as those of each setting of a schedule. Takes time by their number.
    pub fn of_setting(batch: &Batch, numbers: &[usize]) -> PairList
        requires batch { IsBatch batch.now }
        requires known { All (λ t. t < length batch.now) numbers.now }
        requires matching { IsMatching batch.now numbers.now }
        ensures members { result ≡ in_order (setting_pairs batch.now numbers.now) }
        // In a rack that has the batch's modules they are pairs of that rack, and a switch to which
        // all of these can be wired joins by them what the transfers want joined.
        ensures pairs { (modules : ℕ) → HasModulesOf modules batch.now → ArePairs modules result }
        ensures switch { (modules : ℕ) (wiring : Wiring) → HasModulesOf modules batch.now →
            modules ≤ room_of wiring →
            switch_of wiring result ≡ switch_of wiring (setting_pairs batch.now numbers.now) }
    {
        let responders = responders_of(batch, numbers);
        let mut pairs = PairList::none();
        for initiator in 0..MAX_MODULES {
            pairs.put(initiator, responders[initiator]);
        }
        pairs
    }
}

/// The responder of each initiator of a setting's transfers.
fn responders_of(batch: &Batch, numbers: &[usize]) -> [Option<u8>; MAX_MODULES]
    requires batch { IsBatch batch.now }
    requires known { All (λ t. t < length batch.now) numbers.now }
    requires matching { IsMatching batch.now numbers.now }
    ensures members { table_pairs 0 result ≡ in_order (setting_pairs batch.now numbers.now) }
    ensures pairs { (modules : ℕ) → HasModulesOf modules batch.now →
        ArePairs modules (table_pairs 0 result) }
    ensures switch { (modules : ℕ) (wiring : Wiring) → HasModulesOf modules batch.now →
        modules ≤ room_of wiring →
        switch_of wiring (table_pairs 0 result)
        ≡ switch_of wiring (setting_pairs batch.now numbers.now) }
{
    let mut responders = [None; MAX_MODULES];
    for t in numbers {
        let transfer = transfer_of(batch, *t);
        responders[transfer.initiator] = Some(transfer.responder as u8);
    }
    responders
}
