ghost use Rattle.std.specs.Prelude.{◌≡◌, ◌∷◌, [], None, Some};
ghost use Rattle.batch.specs.Rows.{three_transfers};
ghost use Rattle.link_graph.specs.Rows.{two_settings};
ghost use Rattle.module_orders.specs.Orders.{orders_of, told_to};
ghost use Rattle.module_orders.specs.OrdersText.{orders_text};
ghost use Rattle.row_tests.specs.Rows.{empty_orders, first_orders, swap, swap_orders};
ghost use Rattle.row_tests.specs.Rows.{turned_orders, three_transfers_orders};

use super::texts::read;
use batch::Batch;
use link_graph::{Certificate, End, Schedule};
use module_orders::{Act, Order, RackOrders};
use schedule_picture::certificate_status;
use std::alloc::Global;

/// Two modules that swap their blocks 0.
const SWAP: &str = "batch 2\npush 0 0 1 0\npush 1 0 0 0\n";

/// The definitions give the texts of worked rows. In a swap at once each module sends its copy; one
/// after the other, module 0 sends its block before it receives.
fn the_definitions_spell_the_rows()
    ensures three_transfers { orders_text (told_to None (orders_of three_transfers two_settings))
        ≡ three_transfers_orders }
    ensures one { orders_text (told_to (Some 0) (orders_of three_transfers two_settings))
        ≡ first_orders }
    ensures swap { orders_text (told_to None (orders_of swap ((0 ∷ 1 ∷ []) ∷ []))) ≡ swap_orders }
    ensures turned { orders_text (told_to None (orders_of swap ((0 ∷ []) ∷ (1 ∷ []) ∷ [])))
        ≡ turned_orders }
    ensures none { orders_text (told_to None (orders_of [] [])) ≡ empty_orders }
{}

/// The orders of a batch for a schedule of it.
fn orders_by(
    alloc: Global,
    batch: &Batch,
    schedule: &Schedule,
    certificate: Option<&Certificate>,
) -> Option<RackOrders> {
    certificate_status(alloc, batch, schedule, certificate).ok()?;
    RackOrders::of(alloc, batch, schedule).ok()
}

/// The orders of a batch's text for a schedule's text.
fn orders_for(alloc: Global, batch: &str, schedule: &str) -> Option<RackOrders> {
    let batch = read(alloc, batch)?;
    let (schedule, certificate) = Schedule::read(alloc, schedule.as_bytes()).ok()?;
    orders_by(alloc, &batch, &schedule, certificate.as_ref())
}

/// Whether a module is told just these orders.
fn are_told(orders: &RackOrders, module: usize, wanted: &[Order]) -> bool {
    match orders.modules().get(module) {
        Some(told) => told.module() == module && told.orders() == wanted,
        None => false,
    }
}

/// An order of the first setting.
fn at_first(end: End, act: Act, block: usize) -> Order {
    Order {
        setting: 0,
        end,
        act,
        block,
    }
}

/// Whether the modules of a swap are told their orders, and one that has none is told none.
fn is_swap_told(alloc: Global) -> Option<bool> {
    let orders = orders_for(alloc, SWAP, "settings 1\nsetting 1 0\n")?;
    let own = [
        at_first(End::Zero, Act::SendCopy, 0),
        at_first(End::Three, Act::Receive, 0),
    ];
    let are_all = are_told(&orders, 0, &own) && are_told(&orders, 1, &own);
    Some(are_all && are_told(&orders, 31, &[]) && orders.modules().len() == 32)
}

/// Whether a schedule of three settings, with empty ones, is told as this text.
fn is_written(alloc: Global, only: Option<usize>, wanted: &str) -> Option<bool> {
    let schedule = "settings 3\nsetting\nsetting 0\nsetting 1\n";
    let orders = orders_for(alloc, SWAP, schedule)?;
    let text = orders.write(alloc, only).ok()?;
    Some(text.as_slice() == wanted.as_bytes())
}

#[test]
fn modules_are_told_orders(rt: HostRuntime) {
    assert!(rt; is_swap_told(rt.alloc()) == Some(true));
}

/// The text of the swap, one transfer a setting, with an empty setting before them.
const TURNED: &str = "\
modules 2 settings 3
module 0 copies 0 orders 2
setting 1 link 0 send block 0
setting 2 link 3 receive block 0
module 1 copies 1 orders 2
copy block 0
setting 1 link 3 receive block 0
setting 2 link 0 send copy 0
";

/// The part of that text of module 1 alone.
const TURNED_ONE: &str = "\
modules 1 settings 3
module 1 copies 1 orders 2
copy block 0
setting 1 link 3 receive block 0
setting 2 link 0 send copy 0
";

#[test]
fn orders_are_written(rt: HostRuntime) {
    let alloc = rt.alloc();
    let none = "modules 0 settings 3\n";
    let are_written = is_written(alloc, None, TURNED) == Some(true)
        && is_written(alloc, Some(1), TURNED_ONE) == Some(true)
        && is_written(alloc, Some(2), none) == Some(true)
        && is_written(alloc, Some(32), none) == Some(true);
    assert!(rt; are_written);
}
