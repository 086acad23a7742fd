//! How often a schedule changes the switch.

ghost use Rattle.std.specs.Prelude.{◌≡◌, ◌<◌, List, [], length, All};
ghost use Rattle.batch.specs.Batches.{IsBatch};
ghost use Rattle.batch.specs.declared.transfer.Transfer.{Transfer};
ghost use Rattle.link_graph.specs.Marks.{members};
ghost use Rattle.link_graph.specs.Schedules.{IsScheduleOf};
ghost use Rattle.link_graph.specs.Uses.{IsMatching};
ghost use Rattle.steady_schedule.specs.Changes.{join_within, join_same, changes};
ghost use Rattle.steady_schedule.specs.Joined.{HaveResponders};

use batch::{MAX_MODULES, MAX_TRANSFERS};
use link_graph::{LinkGraph, Schedule};

/// For each module the module whose link 3 its link 0 is joined to.
type Joined = [Option<usize>; MAX_MODULES];

/// Puts the pairs of modules that a setting joins into a table with no pair.
fn put_in(joined: &mut Joined, graph: &LinkGraph, setting: &[usize])
    requires batch { IsBatch graph.now }
    requires known { All (λ t. t < length graph.now) setting.now }
    requires matching { IsMatching graph.now setting.now }
    requires none { HaveResponders [] joined.old }
    ensures { HaveResponders (members graph.now setting.now) joined.new }
{
    for place in 0..setting.len() {
        let (start, answer) = graph.ends_of(setting[place]);
        joined[start.module] = Some(answer.module);
    }
}

/// Takes the pairs of modules that a setting joins out of their table.
fn take_out(joined: &mut Joined, graph: &LinkGraph, setting: &[usize])
    requires batch { IsBatch graph.now }
    requires known { All (λ t. t < length graph.now) setting.now }
    requires matching { IsMatching graph.now setting.now }
    requires joined { HaveResponders (members graph.now setting.now) joined.old }
    ensures { HaveResponders [] joined.new }
{
    for place in 0..setting.len() {
        let (start, _) = graph.ends_of(setting[place]);
        joined[start.module] = None;
    }
}

/// Whether each pair of modules that the setting joins stands in the table.
fn stand_in(joined: &Joined, graph: &LinkGraph, setting: &[usize]) -> bool
    requires batch { IsBatch graph.now }
    requires known { All (λ t. t < length graph.now) setting.now }
    ensures { (others : List Transfer) → HaveResponders others joined.now
        → result ≡ join_within (members graph.now setting.now) others }
{
    for place in 0..setting.len() {
        let (start, answer) = graph.ends_of(setting[place]);
        if joined[start.module] != Some(answer.module) {
            return false;
        }
    }
    true
}

/// Whether a setting joins the same pairs of modules as the one before, whose pairs the table has.
/// As many pairs, each of which stands there, are the same.
fn join_same(joined: &Joined, graph: &LinkGraph, before: &[usize], setting: &[usize]) -> bool
    requires batch { IsBatch graph.now }
    requires known_before { All (λ t. t < length graph.now) before.now }
    requires matching_before { IsMatching graph.now before.now }
    requires known { All (λ t. t < length graph.now) setting.now }
    requires matching { IsMatching graph.now setting.now }
    requires joined { HaveResponders (members graph.now before.now) joined.now }
    ensures { result ≡ join_same graph.now before.now setting.now }
{
    setting.len() == before.len() && stand_in(joined, graph, setting)
}

/// How often a schedule of the batch changes the switch: for its first setting, and for each that
/// doesn't join the same pairs of modules as the one before. So at most once for each setting.
/// Takes time that grows with the numbers of transfers and of settings.
pub fn count_changes(graph: &LinkGraph, schedule: &Schedule) -> usize
    requires { IsScheduleOf graph.now schedule.now }
    ensures { result ≡ changes graph.now schedule.now }
{
    prove!(graph.len() <= MAX_TRANSFERS);
    let Some(first) = schedule.setting(0) else {
        return 0;
    };
    let mut joined = [None; MAX_MODULES];
    put_in(&mut joined, graph, first);
    let mut before = first;
    let mut count = 1;
    for k in 1..schedule.settings() {
        let setting = schedule.setting(k).unwrap();
        if !join_same(&joined, graph, before, setting) {
            take_out(&mut joined, graph, before);
            put_in(&mut joined, graph, setting);
            count += 1;
        }
        before = setting;
    }
    count
}
