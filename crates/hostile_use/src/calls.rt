//! The calls that the program `exchange` doesn't make where it may want memory, those that hand
//! back what they were lent where there is none, and those that never want any, by their names.

use crate::book_calls::BookCall;
use crate::graph_calls::GraphCall;
use crate::loan_calls::LoanCall;
use crate::met::Met;
use crate::plan_calls::PlanCall;
use crate::rack_calls::RackCall;
use crate::{book_calls, graph_calls, loan_calls, plan_calls, rack_calls};
use std::thread::Threads;

/// A call, on the worked row that is named for it.
#[derive(Clone, Copy)]
pub enum NamedCall {
    OfGraph(GraphCall),
    FirstFit,
    OfLoan(LoanCall),
    OfBook(BookCall),
    OfPlan(PlanCall),
    OfRack(RackCall),
}

use NamedCall::{FirstFit, OfBook, OfGraph, OfLoan, OfPlan, OfRack};

/// All of them, each with its name, which has no space. Those whose names say that they take none
/// never want any.
pub const CALLS: [(&str, NamedCall); 16] = [
    ("split", OfGraph(GraphCall::Split)),
    ("Table::new", OfGraph(GraphCall::New)),
    ("Table::one", OfGraph(GraphCall::One)),
    ("first_fit", FirstFit),
    (
        "Book::apply(Settle),stranger",
        OfBook(BookCall::SettleStranger),
    ),
    ("Rack::part", OfLoan(LoanCall::Part)),
    ("run", OfLoan(LoanCall::Run)),
    ("Book::new", OfLoan(LoanCall::OpenBook)),
    ("Shared::new", OfLoan(LoanCall::OpenExchange)),
    ("Table::insert,takes-none", OfGraph(GraphCall::Insert)),
    ("PairList::of_setting,takes-none", OfPlan(PlanCall::PairUp)),
    ("Parted::rejoin,takes-none", OfRack(RackCall::Rejoin)),
    ("run,begun,takes-none", OfPlan(PlanCall::RunOn)),
    ("run,held,begun,takes-none", OfPlan(PlanCall::SwapOn)),
    (
        "Book::apply,full-history,takes-none",
        OfBook(BookCall::ApplyFull),
    ),
    ("batches-and-racks,takes-none", OfRack(RackCall::Look)),
];

impl NamedCall {
    /// Makes the call, and says what was met. There is nothing to say where there was no memory to
    /// prepare it.
    pub fn make<R: AllocGlobal + Eprint + Threads + Sync>(self, rt: &R) -> Option<Met> {
        match self {
            OfGraph(call) => graph_calls::make(rt, call),
            FirstFit => plan_calls::fit_first(rt),
            OfLoan(call) => loan_calls::make(rt, call),
            OfBook(call) => book_calls::make(rt, call),
            OfPlan(call) => plan_calls::make(rt, call),
            OfRack(call) => rack_calls::make(rt, call),
        }
    }
}
