//! What a setting of a batch's schedule is to the switches of a rack: the pairs of modules that its
//! transfers want joined, the bytes that set the switches to them, and the conversation in which
//! a run sets them and asks whether they stand so. What a drive shares with it stands here too:
//! [`send_setting`] sends, and [`judge`] judges one reply by the [`wanted_switch`].
//!
//! [`PairList::of_setting`] gives the pairs by ascending initiators. [`bytes_for`] writes what a
//! switch is sent, `turning` of `specs/Sending.antt`: a setting where no pairs are known to stand,
//! else the change from these. It turns the switch into that of the new pairs. After what any
//! switch is sent for the first settings of a schedule, it is that of the last of them
//! (`laws::settings_turn`).
//!
//! Where [`configure_switches`] ends well, an honest port's switches are those of the pairs. Over a
//! port that tells what passes, the bytes went whole, outputs 0 to 31 were asked in order, and each
//! replied as the setting calls for (`HaveReplied` of `specs/Asking.antt`, whose steps are those of
//! a drive too). Where it ends otherwise, the port failed, or the output that is named is the first
//! whose reply is another. `specs/Schedules.antt` says the same of the first settings of a
//! schedule, one after another.
#![tactic(auto)]

mod bytes;
mod fault;
mod judging;
pub mod laws;
mod numbers;
mod pair_list;
mod rack;
mod rack_wiring;
mod sending;
mod short_list;
mod switching;

pub use bytes::{
    ENQUIRY_BYTES, WIDE_CHANGE_BYTES, enquiry_bytes, port_of, put_change, put_setting,
};
pub use crossbar::{BoardWiring, Chip, Pair, Wiring};
pub use fault::{Disagreement, SettingFault};
pub use judging::{judge, wanted_switch};
pub use numbers::{numbers_of_setting, transfer_of};
pub use pair_list::PairList;
pub use rack::is_wide;
pub use rack_wiring::RackWiring;
pub use sending::{bytes_for, send_setting};
pub use short_list::{Blank, ShortList};
pub use switching::configure_switches;
