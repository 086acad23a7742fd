//! Laws of orders, of the modules that obey them, and of their text. They make no call.

ghost use Rattle.module_orders.specs.Laws.{ObeyedIsPlaced, RunIsObeyed};

/// Modules that obey all their orders, setting by setting, place all blocks of a batch without
/// overlaps, in whatever order words pass within a setting. And in whatever order the words of each
/// setting are moved, modules can obey so.
pub fn obeying()
    ensures placed { ObeyedIsPlaced }
    ensures any_order { RunIsObeyed }
{}
