use exchange_limits::WorkerCount;

/// What a run works with. It may be used for one run after another.
#[derive(Drop)]
pub struct Plant<P, W, G> {
    /// The port to the switches.
    pub port: P,
    /// The maker of a wire for each transfer.
    pub wires: W,
    /// The gate at which workers arrive.
    pub gate: G,
    /// How many workers there may be.
    pub workers: WorkerCount,
}
