// What hosts call: booking, settling, reading and writing a curve text, writing a page, pricing, reading and writing a snapshot held as values, and the length of a
// text before it is written; over bytes and numbers alone, under the names of C by which `ordc_c` exports them.
#![tactic(auto)]

pub mod book;
pub mod curves_length;
mod layout;
pub mod price;
pub mod read_curves;
pub mod read_snapshot;
pub mod reply;
pub mod settle;
pub mod snapshot_length;
pub mod write_curves;
pub mod write_page;
pub mod write_snapshot;
