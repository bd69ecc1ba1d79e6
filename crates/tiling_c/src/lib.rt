//! The C library: the engine's calls on plain numbers, as include/tiling.h declares them.
//!
//! Each export is a thin function over the engine's own call. Its clauses repeat what that call promises: the
//! only tile across an edge, exactly the tiles that meet a window, each refusal for its cause.
//!
//! No export has a `requires`. What a C caller passes is tested, and refused with the exit code of the
//! command. After a refusal, what would have been filled is unchanged. Nothing here opens a file, prints,
//! starts a thread or keeps a state.
#![tactic(auto)]

pub mod addresses;
pub mod at;
pub mod calling;
pub mod cover;
pub mod cross_arrays;
pub mod crossing;
mod framed_window;
pub mod glue;
mod growing_sink;
pub mod locate;
pub mod machines;
pub mod meeting;
pub mod opening;
pub mod pairing;
pub mod place_arrays;
pub mod placing;
pub mod rule_numbers;
pub mod shapes;
pub mod star;
pub mod verify;
pub mod walk;
