//! Tests of parts of the index and of the server, over their public items, so that they don't prove
//! these again.
#![tactic(auto)]

#[cfg(test)]
mod cache;
#[cfg(test)]
mod etching;
#[cfg(test)]
mod frames;
#[cfg(test)]
mod holders;
#[cfg(test)]
mod inscribe;
#[cfg(test)]
mod marked;
#[cfg(test)]
mod marked_list;
#[cfg(test)]
mod outputs;
#[cfg(test)]
mod ranges;
#[cfg(test)]
mod shards;
#[cfg(test)]
mod turns;
