//! A schedule of switch settings as a picture in SVG, made to be looked at.
//!
//! Each module that takes part has a row, each setting that is shown a column. Where they meet, the
//! row's upper half shows the transfer that link 0 of the module starts in that setting, and its
//! lower half the one that link 3 answers. A cell has the number and the colour of the module at
//! the transfer's other side.
//!
//! [`draw`] gives one text, `picture_of` of `specs/Picture.antt`. No cell lies over another
//! (`laws::nothing_overlaps`). [`certificate_status`] tells how the certificate of a schedule
//! stands, or of what is no schedule of the batch the first fault of its settings. [`verdict_on`]
//! tells how many transfers the busiest link has, how often the switch changes, the most partners
//! of a link, and what prices show (`IsVerdict` of `specs/Verdicts.antt`). No schedule has fewer
//! settings than there are such transfers (`laws::tells_fewest`), or fewer changes than such
//! partners (`laws::tells_needed_changes`).
#![tactic(auto)]

mod cells;
mod elements;
pub mod laws;
mod layout;
mod picture;
mod rows;
mod rows_text;
mod rules;
mod shown;
mod style;
mod verdict;

pub use picture::draw;
pub use shown::ShownSettings;
pub use verdict::{CertificateStatus, Verdict, certificate_status, verdict_on};
