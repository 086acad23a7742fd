//! The rules of a picture: where the switch changes.

ghost use Rattle.std.specs.Prelude.{◌≡◌, ◌<◌, ◌∷◌, [], length, OnOk};
ghost use Rattle.batch.specs.Text.{IsNumber};
ghost use Rattle.link_graph.specs.Marks.{members};
ghost use Rattle.steady_schedule.specs.Changes.{are_partners, join_within as is_within};
ghost use Rattle.schedule_picture.specs.Elements.{Adds};
ghost use Rattle.schedule_picture.specs.Rules.{changes_at as is_change, rule_text};

use crate::layout::{NUMBERS_HEIGHT, RULE_ABOVE, column_left, panel};
use crate::rows::Rows;
use batch::Transfer;
use link_graph::Schedule;
use std::alloc::AllocError;

/// Whether a transfer of the batch joins link 0 of a module to link 3 of another.
fn joins(transfers: &[Transfer], t: usize, start: usize, answer: usize) -> bool
    ensures { result ≡ are_partners (members transfers.now (t ∷ [])) start answer }
{
    match transfers.get(t) {
        Some(x) => x.initiator == start && x.responder == answer,
        None => false,
    }
}

/// Whether one of a setting's transfers does.
fn are_joined(transfers: &[Transfer], setting: &[usize], start: usize, answer: usize) -> bool
    ensures { result ≡ are_partners (members transfers.now setting.now) start answer }
{
    setting.iter().any(|t| joins(transfers, *t, start, answer))
}

/// Whether the pair of modules that a transfer of the batch joins is one that a setting joins too.
fn joins_within(transfers: &[Transfer], t: usize, other: &[usize]) -> bool
    ensures { result
        ≡ is_within (members transfers.now (t ∷ [])) (members transfers.now other.now) }
{
    match transfers.get(t) {
        Some(x) => are_joined(transfers, other, x.initiator, x.responder),
        None => true,
    }
}

/// Whether so it is with each transfer of a setting.
fn join_within(transfers: &[Transfer], setting: &[usize], other: &[usize]) -> bool
    ensures { result
        ≡ is_within (members transfers.now setting.now) (members transfers.now other.now) }
{
    setting.iter().all(|t| joins_within(transfers, *t, other))
}

/// Whether the switch changes for this setting: it is the first, or joins other pairs of modules
/// than the one before. Takes time that grows with the square of the numbers of their transfers.
pub(crate) fn changes_at(transfers: &[Transfer], schedule: &Schedule, k: usize) -> bool
    requires { k < length schedule.now }
    ensures { result ≡ is_change transfers.now schedule.now k }
{
    let before = schedule.setting(k.saturating_sub(1)).unwrap();
    let setting = schedule.setting(k).unwrap();
    let stays = join_within(transfers, before, setting);
    let was = join_within(transfers, setting, before);
    k == 0 || !(stays && was)
}

/// Puts the rule before a column at the end of the text, where the switch changes there.
pub(crate) fn push_rule(
    text: &mut String,
    rows: &Rows<'_>,
    column: usize,
    changes: bool,
) -> Result<(), AllocError>
    requires { IsNumber column }
    ensures { OnOk result (Adds text.old text.new (rule_text rows.now column changes)) }
{
    if changes {
        let (left, panel) = (column_left(column), panel(column));
        let above = rows.panel_top(panel) + NUMBERS_HEIGHT - RULE_ABOVE;
        let below = rows.panel_top(panel + 1) - RULE_ABOVE;
        return write!(text, "<path class='change' d='M{left} {above}V{below}'/>\n");
    }
    Ok(())
}
