//! The text of orders.

ghost use Rattle.std.specs.Prelude.{◌≡◌, IfOk, OnOk, count_by, map};
ghost use Rattle.link_graph.specs.ScheduleText.{text_of};
ghost use Rattle.module_orders.specs.Flags.{numbers_up};
ghost use Rattle.module_orders.specs.Orders.{is_told, rack_told, told_to};
ghost use Rattle.module_orders.specs.OrdersText.{Adds, copy_line, ended, order_line, orders_text};
ghost use Rattle.module_orders.specs.OrdersText.{told_lines};

use crate::module::{ModuleOrders, copies_of};
use crate::order::Order;
use batch::MAX_BLOCKS;
use std::alloc::{AllocError, Global};

/// Puts the line of an order at the end of the text.
fn push_order(text: &mut String, order: &Order) -> Result<(), AllocError>
    ensures { OnOk result (Adds text.old text.new (ended (order_line order.now))) }
{
    let (setting, link, block) = (order.setting, order.end.number(), order.block);
    let words = order.act.words();
    write!(text, "setting {setting} link {link} {words} {block}\n")
}

/// Puts the lines of orders at the end of the text.
fn push_orders(text: &mut String, orders: &[Order]) -> Result<(), AllocError>
    ensures { OnOk result (Adds text.old text.new (text_of (map order_line orders.now))) }
{
    for order in orders {
        push_order(text, order)?;
    }
    Ok(())
}

/// How many of the flags are up.
fn count_of(copied: &[bool; MAX_BLOCKS]) -> usize
    ensures { result ≡ count_by (λ up. up) copied.now }
{
    copied.iter().filter(|up| **up).count()
}

/// Puts the lines of the blocks whose flags are up at the end of the text.
fn push_copies(text: &mut String, copied: &[bool; MAX_BLOCKS]) -> Result<(), AllocError>
    ensures { OnOk result
        (Adds text.old text.new (text_of (map copy_line (numbers_up copied.now)))) }
{
    for block in 0..MAX_BLOCKS {
        if copied[block] {
            write!(text, "copy block {block}\n")?;
        }
    }
    Ok(())
}

/// Puts the lines of a module at the end of the text.
fn push_module(text: &mut String, told: &ModuleOrders) -> Result<(), AllocError>
    ensures { OnOk result (Adds text.old text.new (text_of (told_lines told.now))) }
{
    let copied = copies_of(told.orders());
    let (module, copies, orders) = (told.module(), count_of(&copied), told.orders().len());
    write!(text, "module {module} copies {copies} orders {orders}\n")?;
    push_copies(text, &copied)?;
    push_orders(text, told.orders())
}

/// How many of the modules are told anything.
fn count_told(modules: &[ModuleOrders], only: Option<usize>) -> usize
    ensures { result ≡ count_by (is_told only) modules.now }
{
    let mut count = 0;
    for module in modules {
        if module.is_told(only) {
            count += 1;
        }
    }
    count
}

/// The text of what the modules are told for so many settings, or of what one of them is.
pub(crate) fn rack_text(
    alloc: Global,
    settings: usize,
    modules: &[ModuleOrders],
    only: Option<usize>,
) -> Result<Vec<u8>, AllocError>
    ensures { IfOk result (λ text.
        text.items ≡ orders_text (told_to only (rack_told settings modules.now))) }
{
    let count = count_told(modules, only);
    let mut text = format!(in alloc; "modules {count} settings {settings}\n")?;
    for module in modules {
        if module.is_told(only) {
            push_module(&mut text, module)?;
        }
    }
    Ok(text.into_bytes())
}
