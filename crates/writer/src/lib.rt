//! The record of an order: its canonical tree, found from the closed table, and the tree's bytes.

#![tactic(auto)]

mod arrange;
mod block;
mod compared;
mod draft;
mod pack;
mod parts;
mod stack;
mod tree;
pub mod writing;
