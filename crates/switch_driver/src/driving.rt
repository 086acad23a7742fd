//! The settings of a schedule, put on the switches one after another.

ghost use Rattle.std.specs.Prelude.{◌≤◌, IsSome, length};
ghost use Rattle.c004_commands.specs.declared.port.TheConstants.{PORTS};
ghost use Rattle.link_graph.specs.Schedules.{IsScheduleOf};
ghost use Rattle.switch_settings.specs.RackWirings.{wired_in};
ghost use Rattle.switch_settings.specs.Racks.{HasModulesOf};
ghost use Rattle.switch_driver.specs.Driving.{IsDriven, HasDriveCause};

use crate::drive_observer::{DriveObserver, Halt};
use crate::setting::set_rack;
use batch::Batch;
use crossbar::ConfigPort;
use link_graph::Schedule;
use switch_settings::{PairList, RackWiring, SettingFault, numbers_of_setting};

/// How the settings of a schedule were put on the switches. Settings are counted from 0.
#[derive(Clone, Copy)]
pub enum DriveOutcome {
    /// All settings stood, one after another.
    Completed { settings: usize },
    /// The switches couldn't be set to this setting.
    Stopped { setting: usize, fault: SettingFault },
    /// This setting stands, and no other comes.
    Halted { setting: usize, halt: Halt },
}

/// Puts the settings of a schedule on the switches of a rack that is wired so, one after another,
/// from the first one on that is named, which is set whatever the switches are. Each is sent, all
/// outputs are asked, and where they reply as the setting calls for, the observer is called: it
/// stands. Where a setting joins the pairs that stand already, nothing is sent, and nothing asked.
///
/// The modules that the batch names have to be wired, at most 32, and the port has to tell what
/// passes. The switches are left as they stand.
pub fn drive<P: ConfigPort, S: DriveObserver>(
    port: &mut P,
    rack: RackWiring,
    batch: &Batch,
    schedule: &Schedule,
    first: usize,
    stage: &mut S,
) -> DriveOutcome
    requires few { wired_in rack ≤ PORTS }
    requires modules { HasModulesOf (wired_in rack) batch.now }
    requires schedule { IsScheduleOf batch.now schedule.now }
    requires first { first ≤ length schedule.now }
    requires tells { IsSome (P.passed port.old) }
    ensures driven { IsDriven S.hears rack batch.now schedule.now first result
        (P.passed port.old) stage.old (P.passed port.new) stage.new }
    ensures cause { HasDriveCause P.ConfigPort rack batch.now schedule.now first result
        port.old port.new }
{
    // Asked for its contract alone: the batch is one.
    let _batch = batch.as_slice();
    let settings = schedule.settings();
    let mut standing = None;
    for setting in first..settings {
        let numbers = numbers_of_setting(batch, schedule, setting);
        let pairs = PairList::of_setting(batch, numbers);
        if let Err(fault) = set_rack(port, rack, &standing, pairs.as_slice()) {
            return DriveOutcome::Stopped { setting, fault };
        }
        if let Err(halt) = stage.on_setting(setting, numbers) {
            return DriveOutcome::Halted { setting, halt };
        }
        standing = Some(pairs);
    }
    DriveOutcome::Completed { settings }
}
