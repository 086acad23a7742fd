//! Runs of batch texts, and what is seen of them.

use crate::common::{Told, marked, plan};
use batch::Place;
use crossbar::ConfigPort;
use module_memory::Rack;
use peek_poke::WireMaker;
use schedule_certificate::{Gate, Planned};
use setting_runner::{Outcome, Plant, RunRefusal, StopCause, run};
use std::sync::atomic::AtomicUsize;
use std::thread::Threads;

/// Row three-transfers: transfers 0 and 2 in setting 0, and transfer 1 in setting 1.
pub const THREE_TRANSFERS: &str = "batch 3\npush 0 0 1 0\npush 0 1 2 0\npush 1 1 2 1\n";

/// Each module of the widest rack sends its block 0 into block 1 of the module that lies as far
/// from the other end.
pub const TURNED_ROUND: &str = "\
batch 32\n\
push 0 0 31 1\n\
push 1 0 30 1\n\
push 2 0 29 1\n\
push 3 0 28 1\n\
push 4 0 27 1\n\
push 5 0 26 1\n\
push 6 0 25 1\n\
push 7 0 24 1\n\
push 8 0 23 1\n\
push 9 0 22 1\n\
push 10 0 21 1\n\
push 11 0 20 1\n\
push 12 0 19 1\n\
push 13 0 18 1\n\
push 14 0 17 1\n\
push 15 0 16 1\n\
push 16 0 15 1\n\
push 17 0 14 1\n\
push 18 0 13 1\n\
push 19 0 12 1\n\
push 20 0 11 1\n\
push 21 0 10 1\n\
push 22 0 9 1\n\
push 23 0 8 1\n\
push 24 0 7 1\n\
push 25 0 6 1\n\
push 26 0 5 1\n\
push 27 0 4 1\n\
push 28 0 3 1\n\
push 29 0 2 1\n\
push 30 0 1 1\n\
push 31 0 0 1\n\
";

/// How a run is to end.
#[derive(Clone, Copy)]
pub enum End<'a> {
    /// At its end, with so many settings and words.
    Completed(usize, usize),
    /// In this setting, for this cause, with these transfers, each of which has moved so many
    /// words.
    Stopped(usize, StopCause, &'a [(u16, u16)]),
    Refused(RunRefusal),
}

impl End<'_> {
    /// Whether a run with this outcome ended so.
    fn is_of(&self, outcome: &Outcome) -> bool {
        match self {
            End::Completed(settings, words) => {
                *outcome
                    == Outcome::Completed {
                        settings: *settings,
                        words: *words,
                    }
            }
            End::Stopped(setting, cause, moved) => has_stopped(outcome, *setting, *cause, moved),
            End::Refused(refusal) => *outcome == Outcome::Refused(*refusal),
        }
    }

    /// How often a run that ends so tells its notice: once as it begins, and once for each setting.
    fn times_told(&self) -> usize {
        match self {
            End::Completed(settings, _) => settings.saturating_add(1),
            End::Stopped(setting, _, _) => setting.saturating_add(1),
            End::Refused(_) => 0,
        }
    }
}

/// Whether a run with this outcome stopped in this setting, for this cause, and moved these words.
fn has_stopped(outcome: &Outcome, number: usize, wanted: StopCause, words: &[(u16, u16)]) -> bool {
    match outcome {
        Outcome::Stopped {
            setting,
            cause,
            moved,
        } => {
            let is_moved = moved.as_slice() == words;
            *setting == number && *cause == wanted && is_moved
        }
        _ => false,
    }
}

/// A block, by its module and its number, and the words that it is to have after a run.
pub type Block<'a> = (usize, usize, &'a [u32]);

/// A run of a batch text on a marked rack, how it is to end, and the words that some blocks are to
/// have after it.
#[derive(Clone, Copy)]
pub struct Case<'a> {
    pub shape: &'a str,
    pub text: &'a str,
    pub end: End<'a>,
    pub blocks: &'a [Block<'a>],
}

/// Whether all these blocks have their words.
pub fn has_blocks(rack: &Rack, blocks: &[Block<'_>]) -> bool {
    for (module, block, words) in blocks {
        let place = Place {
            module: *module,
            block: *block,
        };
        if rack.block(place) != Some(*words) {
            return false;
        }
    }
    true
}

/// Whether a run of the case's plan on this rack ends as it says, leaves the words, and tells its
/// notice as often as such a run does, in order.
fn ends_on<R: AllocGlobal + Threads + Sync, P: ConfigPort, W: WireMaker + Sync, G: Gate + Sync>(
    rt: &R,
    rack: Rack,
    plant: &mut Plant<P, W, G>,
    planned: &Planned,
    case: &Case<'_>,
    times: &AtomicUsize,
) -> bool {
    let mut told = Told::new(times);
    let (batch, schedule) = (planned.batch(), planned.schedule());
    let (rack, outcome) = run(rt, rt.alloc(), rack, plant, batch, schedule, &mut told);
    let is_ended = case.end.is_of(&outcome);
    let has_words = has_blocks(&rack, case.blocks);
    let is_told = told.is_just(case.end.times_told());
    is_ended && has_words && is_told
}

/// Runs the plan on the case's rack, and gives whether it ends as the case says.
pub fn ends<R: AllocGlobal + Threads + Sync, P: ConfigPort, W: WireMaker + Sync, G: Gate + Sync>(
    rt: &R,
    plant: &mut Plant<P, W, G>,
    planned: &Planned,
    case: &Case<'_>,
    times: &AtomicUsize,
) -> bool {
    match marked(rt.alloc(), case.shape) {
        Some(rack) => ends_on(rt, rack, plant, planned, case, times),
        None => false,
    }
}

/// Whether a run with this plant ends as the case says, leaves the words, and tells
/// its notice as often as such a run does, in order. How often it was told is counted here.
pub fn ends_so<R: AllocGlobal + Threads + Sync, P: ConfigPort, W: WireMaker + Sync, G: Gate + Sync>(
    rt: &R,
    plant: &mut Plant<P, W, G>,
    case: &Case<'_>,
    times: &AtomicUsize,
) -> bool {
    match plan(rt, case.text) {
        Some(planned) => ends(rt, plant, &planned, case, times),
        None => false,
    }
}
