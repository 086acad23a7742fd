//! The orders of one module.

ghost use Rattle.std.specs.Prelude.{◌≡◌, ◌<◌, [], ◌∷◌, ◌++◌, OnOk};
ghost use Rattle.batch.specs.declared.limits.TheConstants.{MAX_BLOCKS};
ghost use Rattle.module_orders.specs.Flags.{copy_flags};
ghost use Rattle.module_orders.specs.Orders.{HaveBlocks, is_told, module_told};

use crate::order::Order;
use batch::MAX_BLOCKS;
use std::alloc::{AllocError, Global};
use std::marker::Model;

/// The orders of a module, by their settings; of a setting that over link 0 comes first.
#[derive(Drop)]
pub struct ModuleOrders {
    module: usize,
    orders: Vec<Order>,
}

impl Model for ModuleOrders {
    ghost use Rattle.module_orders.specs.Orders.{HaveBlocks, ModuleTold};

    ghost Value = { ModuleTold };

    ghost view = { λ m. record { «module» = m.«module»; orders = m.orders.items } };

    ghost invariant = { λ m. HaveBlocks m.orders.items };
}

impl ModuleOrders {
    /// A module that is told nothing yet.
    pub(crate) fn none(alloc: Global, module: usize) -> ModuleOrders
        ensures { result ≡ module_told «module» [] }
    {
        ModuleOrders {
            module,
            orders: Vec::new(alloc),
        }
    }

    /// Tells the module one order more.
    pub(crate) fn push(&mut self, order: Order) -> Result<(), AllocError>
        requires { order.block < MAX_BLOCKS }
        ensures { OnOk result
            (self.new ≡ module_told self.old.«module» (self.old.orders ++ order ∷ [])) }
    {
        self.orders.push(order)?;
        Ok(())
    }

    /// The module's number.
    pub fn module(&self) -> usize
        ensures { result ≡ self.now.«module» }
    {
        self.module
    }

    /// Its orders.
    pub fn orders(&self) -> &[Order]
        ensures orders { result.now ≡ self.now.orders }
        ensures blocks { HaveBlocks self.now.orders }
    {
        self.orders.as_slice()
    }

    /// Whether it has orders, and is the module that is asked for, where one is.
    pub(crate) fn is_told(&self, only: Option<usize>) -> bool
        ensures { result ≡ is_told only self.now }
    {
        !self.orders.is_empty() && only.is_none_or(|only| self.module == only)
    }
}

/// A flag for each block, which is up where one of the orders sends the block's copy.
pub(crate) fn copies_of(orders: &[Order]) -> [bool; MAX_BLOCKS]
    requires { HaveBlocks orders.now }
    ensures { result ≡ copy_flags orders.now }
{
    let mut copied = [false; MAX_BLOCKS];
    for order in orders {
        if order.act.is_copy() {
            copied[order.block] = true;
        }
    }
    copied
}
