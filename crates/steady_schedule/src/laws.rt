//! Laws of how often the switch changes, proved of the definitions alone. They do nothing.

ghost use Rattle.steady_schedule.specs.Laws.{PartnersNeedChanges, PricesNeedChanges};

/// Every schedule of a batch, of whatever length, changes the switch at least as often as any link
/// has partners: a setting joins a link to one partner at most, so to each of them another set of
/// pairs.
pub fn partners_need_changes()
    ensures { PartnersNeedChanges }
{}

/// Every schedule of a batch with so many settings changes the switch at least as often as prices
/// show, whoever found them: each of its steps costs all links no more than the scale.
pub fn prices_need_changes()
    ensures { PricesNeedChanges }
{}
