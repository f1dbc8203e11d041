//! Serving connections: what is read, what the office does, and what is written.
//!
//! `serve_one` has the office handle one request, and sends only its reply or a beginning of it
//! (`served`). All that `Office::handle` promises of a request holds of one that is served
//! (`Handles`). If a read fails, nothing is done. After a failed write the client may send its
//! request again. What a real socket gives or takes is only tested.
#![tactic(auto)]

mod serve;

pub use hh_office::{Office, ReportStop, Tables, reached_conserve};
pub use hh_wire::Routes;
pub use serve::{ServeFault, Served, serve_one};
