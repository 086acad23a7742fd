//! The orders of all modules.

ghost use Rattle.std.specs.Prelude.{◌≡◌, ◌<◌, ◌++◌, [], ℕ, List, length, All, IfOk, OnOk};
ghost use Rattle.batch.specs.Batches.{IsBatch};
ghost use Rattle.batch.specs.Written.{flag_of};
ghost use Rattle.link_graph.specs.Schedules.{IsScheduleOf};
ghost use Rattle.module_memory.specs.Core.{setting_of};
ghost use Rattle.module_orders.specs.Orders.{all_modules, orders_of, orders_over, told_to};
ghost use Rattle.module_orders.specs.OrdersText.{orders_text};
ghost use Rattle.module_orders.specs.declared.order.Order.{Order};
ghost use Rattle.link_graph.specs.Counts.{module_at};

use crate::changed::ChangedBlocks;
use crate::module::ModuleOrders;
use crate::order::order_at;
use crate::writing;
use batch::{Batch, MAX_MODULES, Transfer};
use link_graph::{End, Schedule};
use std::alloc::{AllocError, Global};
use std::marker::Model;
use switch_settings::{numbers_of_setting, transfer_of};

/// The orders of all modules that a rack may have, for the settings of a schedule.
#[derive(Drop)]
pub struct RackOrders {
    settings: usize,
    modules: Vec<ModuleOrders>,
}

impl Model for RackOrders {
    ghost use Rattle.module_orders.specs.Orders.{RackTold};

    ghost Value = { RackTold };

    ghost view = { λ r. record { settings = r.settings; modules = r.modules.items } };
}

/// All modules that a rack may have, none of them told anything.
fn idle_modules(alloc: Global) -> Result<Vec<ModuleOrders>, AllocError>
    ensures { IfOk result (λ modules. modules.items ≡ all_modules (λ _. [])) }
{
    let mut modules = Vec::with_capacity(alloc, MAX_MODULES)?;
    for module in 0..MAX_MODULES {
        modules.push(ModuleOrders::none(alloc, module))?;
    }
    Ok(modules)
}

/// The module at this end of a transfer.
fn module_of(end: End, transfer: &Transfer) -> usize
    ensures { result ≡ module_at end transfer.now }
{
    match end {
        End::Zero => transfer.initiator,
        End::Three => transfer.responder,
    }
}

/// Tells the modules at this end of a setting's transfers what they do over their links.
fn push_orders(
    modules: &mut Vec<ModuleOrders>,
    batch: &Batch,
    numbers: &[usize],
    setting: usize,
    end: End,
    changed: &ChangedBlocks,
) -> Result<(), AllocError>
    requires all { length modules.old.items ≡ MAX_MODULES }
    requires batch { IsBatch batch.now }
    requires known { All (λ t. t < length batch.now) numbers.now }
    ensures { OnOk result ((orders : ℕ → List Order) → modules.old.items ≡ all_modules orders →
        modules.new.items ≡ all_modules (λ m. orders m
        ++ orders_over (flag_of changed.now.flags) setting end
        (setting_of batch.now numbers.now) m)) }
{
    for t in numbers {
        let transfer = transfer_of(batch, *t);
        let late = changed.has(transfer.source());
        let order = order_at(late, setting, end, &transfer);
        modules[module_of(end, &transfer)].push(order)?;
    }
    Ok(())
}

impl RackOrders {
    /// The orders of each module for a schedule of the batch: in each setting what it does over
    /// link 0 and over link 3. Where a block is read, and another transfer changes it in that
    /// setting or in one before it, its copy is sent; else the block itself is.
    ///
    /// Takes time that grows with the number of transfers and of settings, and memory for two
    /// orders of each transfer.
    pub fn of(alloc: Global, batch: &Batch, schedule: &Schedule) -> Result<RackOrders, AllocError>
        requires { IsScheduleOf batch.now schedule.now }
        ensures { IfOk result (λ orders. orders ≡ orders_of batch.now schedule.now) }
    {
        // Asked for its law alone: the batch is one.
        let _batch = batch.len();
        let settings = schedule.settings();
        let mut modules = idle_modules(alloc)?;
        let mut changed = ChangedBlocks::none();
        for setting in 0..settings {
            let numbers = numbers_of_setting(batch, schedule, setting);
            changed.add(batch, numbers);
            push_orders(&mut modules, batch, numbers, setting, End::Zero, &changed)?;
            push_orders(&mut modules, batch, numbers, setting, End::Three, &changed)?;
        }
        Ok(RackOrders { settings, modules })
    }

    /// What each module is told, from module 0 on: all that a rack may have, also those without
    /// orders.
    pub fn modules(&self) -> &[ModuleOrders]
        ensures { result.now ≡ self.now.modules }
    {
        self.modules.as_slice()
    }

    /// The text of the orders: the line `modules N settings S`, and for each of the N modules that
    /// have orders the line `module M copies C orders O`, C lines `copy block B`, and O lines
    /// `setting S link E send block B`, with `send copy` or `receive block` in the place of `send
    /// block`. Where one module is asked for, it alone is told, if it has orders.
    ///
    /// Takes time that grows with the length of the text.
    pub fn write(&self, alloc: Global, only: Option<usize>) -> Result<Vec<u8>, AllocError>
        ensures { IfOk result (λ text. text.items ≡ orders_text (told_to only self.now)) }
    {
        writing::rack_text(alloc, self.settings, self.modules.as_slice(), only)
    }
}
