//! The calls that are handed a rack, and hand it back where there is no memory.

ghost use Rattle.batch_book.specs.History.{new_book_view};
ghost use Rattle.batch_book.specs.Naming.{IsNamed};

use crate::marks::{begin, end};
use crate::met::Met;
use crate::plants::{NoNotice, plain, plant_of};
use crate::rows::{TWO_PUSHES, TWO_PUSHES_SHAPE, WRITTEN, is_marked, marked, plan};
use batch_book::{Book, ExchangeBlank, ExchangeName, Shared, SharedFault};
use crossbar::MemoryPort;
use exchange_limits::WorkerCount;
use module_memory::{LendFault, Rack};
use peek_poke::PlainWires;
use schedule_certificate::{OpenGate, Planned};
use setting_runner::{Outcome, RunRefusal, run};
use std::alloc::Global;
use std::marker::Brand;
use std::thread::Threads;

/// A call on the marked rack of row two-pushes.
#[derive(Clone, Copy)]
pub enum LoanCall {
    /// `Rack::part` at the blocks that the row writes.
    Part,
    /// `run` of the row.
    Run,
    /// `Book::new`.
    OpenBook,
    /// `Shared::new` with two sessions, and a plant with two workers.
    OpenExchange,
}

/// Makes a call on the row's rack.
pub fn make<R: AllocGlobal + Eprint + Threads + Sync>(rt: &R, call: LoanCall) -> Option<Met> {
    let rack = marked(rt.alloc(), TWO_PUSHES_SHAPE)?;
    match call {
        LoanCall::Part => Some(part(rt, rack)),
        LoanCall::Run => run_row(rt, rack),
        LoanCall::OpenBook => Some(open_book(rt, rack)),
        LoanCall::OpenExchange => {
            let blank = ExchangeBlank::new(rt.alloc()).ok()?;
            Some(open_exchange::<Brand, R>(rt, blank, rack))
        }
    }
}

/// Whether a rack is as it was handed in, word for word.
fn is_whole(alloc: Global, rack: &Rack) -> bool {
    is_marked(alloc, rack, TWO_PUSHES_SHAPE)
}

/// `Rack::part`. What is parted rejoins.
fn part<R: AllocGlobal + Eprint>(rt: &R, rack: Rack) -> Met {
    begin(rt);
    let parted = rack.part(&WRITTEN, &[]);
    end(rt);
    match parted {
        Ok(parted) => Met::row_if(is_whole(rt.alloc(), &parted.rejoin())),
        Err((rack, LendFault::NoMemory)) => Met::no_memory_if(is_whole(rt.alloc(), &rack)),
        Err(_) => Met::Other,
    }
}

/// Whether the blocks that the row writes have its words.
fn is_run(rack: &Rack) -> bool {
    let [one, two] = WRITTEN;
    rack.block(one) == Some([0, 1].as_slice())
        && rack.block(two) == Some([0x0001_0100, 0x0001_0101].as_slice())
}

/// `run`, of this plan.
fn run_plan<R: AllocGlobal + Eprint + Threads + Sync>(
    rt: &R,
    rack: Rack,
    planned: &Planned,
) -> Met {
    let (batch, schedule) = (planned.batch(), planned.schedule());
    let mut plant = plain();
    begin(rt);
    let (rack, outcome) = run(
        rt,
        rt.alloc(),
        rack,
        &mut plant,
        batch,
        schedule,
        &mut NoNotice,
    );
    end(rt);
    match outcome {
        Outcome::Completed {
            settings: 1,
            words: 4,
        } => Met::row_if(is_run(&rack)),
        Outcome::Refused(RunRefusal::NoMemory) => Met::no_memory_if(is_whole(rt.alloc(), &rack)),
        _ => Met::Other,
    }
}

/// `run`, of the row's plan.
fn run_row<R: AllocGlobal + Eprint + Threads + Sync>(rt: &R, rack: Rack) -> Option<Met> {
    let planned = plan(rt, TWO_PUSHES)?;
    Some(run_plan(rt, rack, &planned))
}

/// `Book::new`.
fn open_book<R: AllocGlobal + Eprint>(rt: &R, rack: Rack) -> Met {
    begin(rt);
    let opened = Book::new(rt.alloc(), rack);
    end(rt);
    match opened {
        Ok(book) => {
            let is_whole = is_whole(rt.alloc(), book.rack());
            let is_empty = book.history().is_empty();
            Met::row_if(is_whole && is_empty)
        }
        Err((rack, _)) => Met::no_memory_if(is_whole(rt.alloc(), &rack)),
    }
}

/// `Shared::new`.
fn open_exchange<L: ExchangeName, R: AllocGlobal + Eprint>(
    rt: &R,
    blank: ExchangeBlank,
    rack: Rack,
) -> Met
    requires { IsNamed L.name L.parts L.table L.opening L.earlier blank (new_book_view rack) }
{
    let plant = plant_of(WorkerCount::new(2).unwrap());
    begin(rt);
    let made = Shared::<L, MemoryPort, PlainWires, OpenGate>::new(
        rt.alloc(),
        blank,
        rack,
        plant,
        2,
    );
    end(rt);
    match made {
        Ok((_exchange, seats)) => Met::row_if(seats.len() == 2),
        Err((_blank, rack, plant, SharedFault::NoMemory)) => {
            let is_whole = is_whole(rt.alloc(), &rack);
            let workers = plant.workers.get();
            Met::no_memory_if(is_whole && workers == 2)
        }
        Err(_) => Met::Other,
    }
}
