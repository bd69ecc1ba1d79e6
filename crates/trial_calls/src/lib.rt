//! Trials of the top call, `run`: what the program prints, draws and notes, against values from outside.
//!
//! Streams work, or fail at a given call. Layers are passed in: one refuses, and one format has none. Random
//! windows, and windows that graze edges and vertices, are compared with lists of all tiles of the frame, and
//! the summaries of `drill` with the counts of `draw`. The words of a call are also read alone. There is no
//! other code here.
#![tactic(auto)]

#[cfg(test)]
mod calls;
#[cfg(test)]
mod crossing;
#[cfg(test)]
mod drawings;
#[cfg(test)]
mod drawn_rows;
#[cfg(test)]
mod drawn_windows;
#[cfg(test)]
mod drilled;
#[cfg(test)]
mod failing;
#[cfg(test)]
mod files;
#[cfg(test)]
mod foreign;
#[cfg(test)]
mod growth;
#[cfg(test)]
mod hostile;
#[cfg(test)]
mod listed;
#[cfg(test)]
mod notes;
#[cfg(test)]
mod refusing;
#[cfg(test)]
mod rows;
#[cfg(test)]
mod scripts;
#[cfg(test)]
mod tables;
#[cfg(test)]
mod told;
#[cfg(test)]
mod wholes;
#[cfg(test)]
mod words;
#[cfg(test)]
mod wrong;
