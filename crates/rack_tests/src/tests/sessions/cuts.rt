//! Runs that fail or lie, in a session: what it is told, the history and the words.

ghost use Rattle.batch_book.specs.History.{new_book_view};
ghost use Rattle.batch_book.specs.Naming.{IsNamed};
ghost use Rattle.std.specs.Prelude.{◌≡◌, Some};
ghost use Rattle.progress_word.specs.declared.limits.TheConstants.{ALL_PARTS};

use super::served::back;
use crate::tests::office::closed;
use batch_book::{Closed, ExchangeBlank, ExchangeName, Seat, Shared};
use client_session::{NoListener, serve};
use exchange_limits::WorkerCount;
use module_memory::Rack;
use peek_poke::FuseWires;
use runs_tests::common::{marked, two};
use runs_tests::faults::{Fault, FaultyPort, blocks_of, count_of_faults, fault_of};
use runs_tests::running::has_blocks;
use schedule_certificate::OpenGate;
use setting_runner::StopCause;
use std::alloc::{AllocError, Global};
use std::marker::Brand;
use std::sync::Wait;
use std::thread::Threads;
use std::time::Clock;

/// What the session reads: it runs the row, and then looks at what is left.
const SCRIPT: &str = "\
batch 2
push 0 0 1 0
push 1 1 2 0
plan 1
run 1
show 1
run 1
progress
peek 1 80000800
peek 1 80000804
peek 2 80000800
peek 2 80000804
bye
";

/// How many calls of the book that makes: `plan` makes two.
const CALLS: usize = 10;

/// Why a run stopped, as it is told.
fn cause_text(alloc: Global, cause: StopCause) -> Result<String, AllocError> {
    match cause {
        StopCause::Port => String::from_str(alloc, "port"),
        StopCause::SwitchDisagrees(output) => format!(in alloc; "switch {output}"),
        StopCause::Wire(transfer) => format!(in alloc; "wire {transfer}"),
    }
}

/// What a session is told of a run, and of the batch and the progress after it.
fn run_text(
    alloc: Global,
    cause: Option<StopCause>,
    words: [u16; 2],
) -> Result<String, AllocError> {
    let Some(cause) = cause else {
        let ran =
            "ran 1 run 1 settings 1 words 4 bits 468\nbatch 1 transfers 2 ran\nrefused already\n\
            progress run 1 done 1\n";
        return String::from_str(alloc, ran);
    };
    let cause = cause_text(alloc, cause)?;
    let [zero, one] = words;
    let stopped = "batch 1 transfers 2 stopped\nrefused already\nprogress run 1 done 0\n";
    format!(in alloc; "stopped 1 run 1 setting 0 {cause} moved 0:{zero} 1:{one}\n{stopped}")
}

/// The words of block 0 of module 1, where so many were moved.
fn first_words(moved: u16) -> &'static str {
    match moved {
        0 => "word 00010000\nword 00010001\n",
        1 => "word 00000000\nword 00010001\n",
        _ => "word 00000000\nword 00000001\n",
    }
}

/// The words of block 0 of module 2, where so many were moved.
fn second_words(moved: u16) -> &'static str {
    match moved {
        0 => "word 00020000\nword 00020001\n",
        1 => "word 00010100\nword 00020001\n",
        _ => "word 00010100\nword 00010101\n",
    }
}

/// All that a session is told in whose run this fails or lies.
fn wanted(alloc: Global, fault: Fault) -> Result<String, AllocError> {
    let words = fault.words(false);
    let run = run_text(alloc, fault.cause(false), words)?;
    let [zero, one] = words;
    let (first, second) = (first_words(zero), second_words(one));
    format!(in alloc; "accepted 1\nplanned 1 settings 1\n{run}{first}{second}bye\n")
}

/// Whether the session is told that.
fn is_told(alloc: Global, told: &[u8], fault: Fault) -> bool {
    match wanted(alloc, fault) {
        Ok(text) => told == text.as_str().as_bytes(),
        Err(_) => false,
    }
}

/// An exchange in which something fails or lies.
type Faulty<L> = Shared<L, FaultyPort, FuseWires, OpenGate>;

/// Serves the session from a seat, which comes back. Whether it ends by itself, and is told what it
/// should be.
fn session<L: ExchangeName, R: AllocGlobal + Clock + Threads + Wait + Sync>(
    rt: &R,
    exchange: &Faulty<L>,
    seat: Seat<L>,
    fault: Fault,
) -> (Seat<L>, bool)
    requires exchange { seat.exchange ≡ Some exchange.now.word }
    requires told { seat.log ≡ seat.asked }
    ensures { result.0.exchange ≡ seat.exchange }
{
    let mut reader = SCRIPT.as_bytes();
    let mut told = Vec::new(rt.alloc());
    let (seat, ended) = back(serve(
        rt,
        rt.alloc(),
        exchange,
        seat,
        &mut reader,
        &mut told,
        &mut NoListener,
        WorkerCount::ONE,
    ));
    let is_told = is_told(rt.alloc(), told.as_slice(), fault);
    (seat, ended.is_none() && is_told)
}

/// Whether an exchange has just the entries of the session, the words that the run leaves, and
/// those that it was opened with.
fn is_left(closed: Closed<FaultyPort, FuseWires, OpenGate>, fault: Fault) -> bool {
    let entries = closed.book.history().len();
    let has_words = has_blocks(closed.book.rack(), &blocks_of(fault.words(false)));
    let has_opening = has_blocks(closed.book.opening(), &blocks_of([0, 0]));
    let is_set = fault.is_set_rightly(false, &closed.plant.port);
    entries == CALLS && has_words && has_opening && is_set
}

/// Whether the session is told what it should be from the one seat of an exchange, which is left as
/// it should be.
fn is_right<L: ExchangeName, R: AllocGlobal + Clock + Threads + Wait + Sync>(
    rt: &R,
    exchange: Faulty<L>,
    seat: Seat<L>,
    fault: Fault,
) -> bool
    requires seat { seat.exchange ≡ Some exchange.word }
    requires told { seat.log ≡ seat.asked }
    requires parts { L.parts ≡ ALL_PARTS }
{
    let (seat, is_told) = session(rt, &exchange, seat, fault);
    let Ok(seats) = Vec::from_array(rt.alloc(), [seat]) else {
        return false;
    };
    match closed(exchange, seats) {
        Some(closed) => is_left(closed, fault) && is_told,
        None => false,
    }
}

/// Whether a session on a new exchange with this rack is told so, and leaves what it has to.
fn is_served<L: ExchangeName, R: AllocGlobal + Clock + Threads + Wait + Sync>(
    rt: &R,
    blank: ExchangeBlank,
    rack: Rack,
    fault: Fault,
    workers: WorkerCount,
) -> bool
    requires named { IsNamed L.name L.parts L.table L.opening L.earlier blank (new_book_view rack) }
{
    match Faulty::<L>::new(rt.alloc(), blank, rack, fault.plant(workers), 1) {
        Ok((exchange, mut seats)) => {
            prove!(seats.len() == 1);
            is_right(rt, exchange, seats.remove(0), fault)
        }
        Err(_) => false,
    }
}

/// Whether the session is told what it should be, where this fails or lies.
fn runs_to<R: AllocGlobal + Clock + Threads + Wait + Sync>(
    rt: &R,
    fault: Fault,
    workers: WorkerCount,
) -> bool {
    match marked(rt.alloc(), "3x2x2") {
        Some(rack) => match ExchangeBlank::new(rt.alloc()) {
            Ok(blank) => is_served::<Brand, R>(rt, blank, rack, fault, workers),
            Err(_) => false,
        },
        None => false,
    }
}

/// The answers that are tried in a session.
const ANSWERS: [u8; 8] = [0x00, 0x7f, 0x80, 0x81, 0x91, 0x92, 0xa1, 0xff];

/// Whether it is, by one worker and by two. Of answers some are tried, by one.
fn is_right_for<R: AllocGlobal + Clock + Threads + Wait + Sync>(rt: &R, fault: Fault) -> bool {
    match fault {
        Fault::Answer(_, _, reply) if !ANSWERS.contains(&reply) => true,
        Fault::Answer(_, _, _) => runs_to(rt, fault, WorkerCount::ONE),
        _ => {
            let by_one = runs_to(rt, fault, WorkerCount::ONE);
            let by_two = runs_to(rt, fault, two());
            by_one && by_two
        }
    }
}

/// The number of the first fault for which it isn't, or how many there are.
fn first_wrong<R: AllocGlobal + Clock + Threads + Wait + Sync>(rt: &R) -> usize {
    let count = count_of_faults(false);
    for number in 0..count {
        if !is_right_for(rt, fault_of(number)) {
            return number;
        }
    }
    count
}

#[test]
fn each_byte_and_some_answers_in_a_session(rt: HostRuntime) {
    let wrong = first_wrong(&rt);
    assert!(rt; wrong == count_of_faults(false), "fault {wrong}");
}
