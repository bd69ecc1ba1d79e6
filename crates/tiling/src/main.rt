//! The program `tiling`: its arguments, the standard streams, its three layers, and the exit code.
//!
//! It passes the arguments after the program's name, the standard streams, and a layer of each format to
//! `run`. It ends with the exit code of the status. If an argument is not UTF-8, the code is 1. If memory
//! runs out for the arguments or the layers, it is 11. In both cases nothing is written.
#![tactic(auto)]

use layer_api::layer::Layer;
use layer_list::census_layer::CensusLayer;
use layer_list::list_layer::ListLayer;
use layer_svg::svg_layer::SvgLayer;
use std::alloc::{AllocError, AllocFailed};
use std::env::Env;
use std::process::ExitCode;
use std::{env, io};
use tile_app::run::run;
use tile_io::std_sink::StdSink;
use tile_io::std_source::StdSource;

/// Why the call could not begin.
#[derive(Clone, Copy, Debug, PartialEq, Eq)]
enum NotBegun {
    /// An argument is not UTF-8.
    NotText,
    /// Memory ran out for the arguments or the layers.
    NoMemory,
}

impl NotBegun {
    /// Returns the exit code.
    fn code(self) -> u8 {
        match self {
            NotBegun::NotText => 1,
            NotBegun::NoMemory => 11,
        }
    }
}

impl<T: Drop> From<AllocFailed<T>> for NotBegun {
    fn from(_error: AllocFailed<T>) -> NotBegun {
        NotBegun::NoMemory
    }
}

/// Returns the arguments after the program's name.
fn words<R: Env + AllocGlobal>(rt: &R) -> Result<Vec<String>, NotBegun> {
    let args = match env::args(rt) {
        Ok(args) => args,
        Err(e) => {
            return Err(match e.kind() {
                io::ErrorKind::OutOfMemory => NotBegun::NoMemory,
                _ => NotBegun::NotText,
            });
        }
    };
    args.skip(1)
        .collect(rt.alloc())
        .map_err(|_error: AllocError| NotBegun::NoMemory)
}

/// Makes the layers, runs the call over the standard streams, and returns the exit code.
fn program(rt: &HostRuntime) -> Result<u8, NotBegun> {
    let words = words(rt)?;
    let alloc = rt.alloc();
    let mut layers: Vec<Box<dyn Layer>> = Vec::new(alloc);
    layers.push(Box::new(alloc, SvgLayer::new(alloc))?)?;
    layers.push(Box::new(alloc, ListLayer::new(alloc))?)?;
    layers.push(Box::new(alloc, CensusLayer::new(alloc))?)?;
    let mut source = StdSource::new(rt.stdin());
    let mut sink = StdSink::new(rt.stdout());
    let mut notes = StdSink::new(rt.stderr());
    let status = run(alloc, &words, &mut source, &mut sink, &mut notes, layers);
    Ok(status.code())
}

fn main(rt: HostRuntime) -> ExitCode {
    match program(&rt) {
        Ok(code) => ExitCode::from(code),
        Err(not_begun) => ExitCode::from(not_begun.code()),
    }
}
