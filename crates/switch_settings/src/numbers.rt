//! What the numbers of a schedule name.

ghost use Rattle.std.specs.Prelude.{◌≡◌, ◌≤◌, ◌<◌, length, All};
ghost use Rattle.batch.specs.Overlap.{transfer_at};
ghost use Rattle.link_graph.specs.Schedules.{IsScheduleOf};
ghost use Rattle.link_graph.specs.Uses.{IsMatching};
ghost use Rattle.switch_settings.specs.Settings.{numbers_in};

use batch::{Batch, MAX_MODULES, Transfer};
use link_graph::Schedule;

/// The transfer of this number.
pub fn transfer_of(batch: &Batch, number: usize) -> Transfer
    requires { number < length batch.now }
    ensures { result ≡ transfer_at batch.now number }
{
    batch.as_slice()[number]
}

/// The numbers of the transfers of a setting, as the schedule has them: at most 32. The schedule
/// has to be one of the batch, and the setting below the number of its settings.
pub fn numbers_of_setting<'a>(batch: &Batch, schedule: &'a Schedule, setting: usize) -> &'a [usize]
    requires schedule { IsScheduleOf batch.now schedule.now }
    requires within { setting < length schedule.now }
    ensures numbers { result.now ≡ numbers_in schedule.now setting }
    ensures few { length result.now ≤ MAX_MODULES }
    ensures known { All (λ t. t < length batch.now) result.now }
    ensures matching { IsMatching batch.now result.now }
{
    // Asked for its contract alone: the batch is one.
    let _batch = batch.as_slice();
    schedule.setting(setting).unwrap()
}
