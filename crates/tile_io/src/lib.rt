//! Bytes in and bytes out, with counted faults.
//!
//! A `Source` gives bytes and a `Sink` takes them. Each reports, if it can, which bytes it still has or has
//! taken. Each counts its faults, so a call returns `Failed` only if the object that was passed in failed.
//! `SteadySource` and `SteadySink` are in memory and never fail. `MemSource` and `MemSink` are in memory too,
//! and fail at the calls that are listed. `StdSource` and `StdSink` connect to readers and writers of std,
//! which report no bytes.
//!
//! `write_all` promises that all bytes were taken, or a proper prefix of them and a fault. `read_all`
//! promises that all bytes were read to the end, or a fault, or one byte more than was asked for.
#![tactic(auto)]

pub mod failed;
mod fault_plan;
pub mod laws;
pub mod mem_sink;
pub mod mem_source;
pub mod read_all_fault;
pub mod reading;
pub mod sink;
pub mod source;
pub mod std_sink;
pub mod std_source;
pub mod steady_sink;
pub mod steady_source;
pub mod writing;
