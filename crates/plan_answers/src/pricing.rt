//! The command `draw --prices`.

ghost use Rattle.std.specs.Prelude.{◌≡◌, ◌++◌, ◌*◌, ◌+◌, IfOk, OnOk, codes, length, string_bytes};
ghost use Rattle.batch.specs.ShapeView.{widest};
ghost use Rattle.link_graph.specs.ScheduleText.{numbers};
ghost use Rattle.link_graph.specs.Schedules.{IsScheduleOf};
ghost use Rattle.link_graph.specs.declared.limits.TheConstants.{LINKS};
ghost use Rattle.schedule_picture.specs.Elements.{Adds};
ghost use Rattle.steady_schedule.specs.Prices.{IsPriceTable};
ghost use Rattle.plan_answers.specs.Pricing.{table_text, IsPriced};

use crate::answer::Answer;
use crate::schedule_texts::ScheduleTexts;
use crate::validity::most_uses;
use batch::{Batch, Shape};
use link_graph::{LINKS, LinkGraph, Schedule};
use std::alloc::{AllocError, Global};
use steady_schedule::{PriceTable, best_price_table, count_changes};

/// Puts the line of the prices of a length at the end of the text.
fn push_prices(text: &mut String, prices: &[u32]) -> Result<(), AllocError>
    ensures { OnOk result
        (Adds text.old text.new (codes "prices" ++ numbers prices.now ++ codes "\n")) }
{
    text.push_str("prices")?;
    for price in prices {
        write!(text, " {price}")?;
    }
    text.push_str("\n")
}

/// The text of a table of prices, for schedules with so many settings.
fn table(alloc: Global, settings: usize, priced: &PriceTable) -> Result<String, AllocError>
    requires { length priced.now.prices.items ≡ (priced.now.top + 1) * LINKS }
    ensures { IfOk result (λ text. string_bytes text ≡ table_text settings priced.now) }
{
    let changes = priced.changes;
    let mut text = format!(in alloc; "settings {settings} shown {changes}\n")?;
    for shorter in 0..priced.top {
        let place = (shorter + 1) * LINKS;
        push_prices(&mut text, &priced.prices[place..place + LINKS])?;
    }
    Ok(text)
}

/// A table of prices for schedules of the batch with as many settings as this one. Nothing is
/// looked for beyond its changes. Where its settings aren't the fewest the table shows nothing.
fn prices_of(alloc: Global, batch: &Batch, schedule: &Schedule) -> Result<PriceTable, AllocError>
    requires { IsScheduleOf batch.now schedule.now }
    ensures { IfOk result (IsPriceTable batch.now (length schedule.now)) }
{
    let graph = LinkGraph::of(batch)?;
    let settings = schedule.settings();
    if settings != most_uses(&graph) {
        return PriceTable::none(alloc);
    }
    best_price_table(alloc, &graph, settings, count_changes(&graph, schedule))
}

/// The answer of `exchange draw --prices`: prices by which it is shown how often the switch has to
/// change, for the schedule that the schedule text says, of the batch that the batch text denotes;
/// or the refusal of what is first wrong.
///
/// The first line is `settings S shown N`: each schedule of the batch with S settings, as many as
/// this one has, changes the switch at least N times. Then a line `prices P0 P1 ..` for each length
/// of a step, from 1 on, has the prices of all [`LINKS`] links: of links 0 by their modules, then
/// of links 3. They add up to 65,536 at most. [`best_price_table`] says why they show N changes.
///
/// Where the schedule hasn't the fewest settings, or there is no transfer, N is 0. Where N is 0, no
/// prices follow. That is no failure: prices show nothing then.
///
/// No contract says how great N is. Tests show that it is this schedule's changes where the title
/// of the picture says `the fewest with so few settings`, and else no more than the title says.
///
/// The texts are looked at as by [`answer_draw`](crate::answer_draw). Takes time that grows with
/// the lengths of the texts, and as [`best_price_table`] does.
pub fn answer_prices(alloc: Global, batch: &[u8], schedule: &[u8]) -> Result<Answer, AllocError>
    ensures { IfOk result (IsPriced widest batch.now schedule.now) }
{
    match ScheduleTexts::read(alloc, Shape::WIDEST, batch, schedule) {
        Ok(texts) => {
            let schedule = texts.schedule();
            let priced = prices_of(alloc, texts.batch(), schedule)?;
            let text = table(alloc, schedule.settings(), &priced)?;
            Ok(Answer::done(text.into_bytes()))
        }
        Err(refusal) => Answer::refused(alloc, refusal),
    }
}
