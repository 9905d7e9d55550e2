//! What the machine's parts do: store buffers, caches and the bus, and a choice as a whole.

pub mod both_buses;
pub mod bus_calls;
pub mod bus_halves;
pub mod cache_sets;
pub mod choices;
pub mod simulations;
pub mod store_buffers;
pub mod waiting_cores;
