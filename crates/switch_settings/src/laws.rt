//! Laws of what switches are sent. They make no call.

ghost use Rattle.switch_settings.specs.Laws.{SettingsTurn};

/// What a switch is sent for the first settings of a schedule, one after the other, turns it into
/// that of the last of these settings, whatever it was. What each command does is the INMOS IMS
/// C004 data sheet's.
pub fn settings_turn()
    ensures { SettingsTurn }
{}
