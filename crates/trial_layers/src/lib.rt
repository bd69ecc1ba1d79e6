//! Trials of the layers: the texts of the list, the census and the picture, on tiles put by hand, compared
//! with values from outside. Some layers are in boxes, and one refuses. There is no other code here.
#![tactic(auto)]

#[cfg(test)]
mod boxed;
#[cfg(test)]
mod kept;
#[cfg(test)]
mod lines;
#[cfg(test)]
mod refusing;
#[cfg(test)]
mod texts;
#[cfg(test)]
mod tiles;
#[cfg(test)]
mod wrong;
