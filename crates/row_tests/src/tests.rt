//! The rows of the crate NAME in `NAME_rows.rt`, runs in `runs`, and the moments at which planners
//! arrive at a gate.

mod alternating_path_rows;
mod arrivals;
mod batch_rows;
mod byte_streams_rows;
mod c004_commands_rows;
mod crossbar_rows;
mod euler_split_rows;
mod exchange_limits_rows;
mod failure_count_rows;
mod link_bytes_rows;
mod link_devices_rows;
mod link_graph_rows;
mod module_memory_rows;
mod module_orders_rows;
mod move_directions_rows;
mod peek_poke_rows;
mod planning;
mod prints;
mod progress_word_rows;
mod racks;
mod runs;
mod schedule_certificate_rows;
mod schedule_picture_rows;
mod steady_schedule_rows;
mod streams;
mod texts;
