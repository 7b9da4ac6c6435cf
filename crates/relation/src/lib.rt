//! Relations on at most 128 jobs as tables of bits: a table from arcs, and of an order what is looked for in it and
//! its reduction.

#![tactic(auto)]

pub mod arcs;
pub mod order;
pub mod reduction;
pub mod search;
pub mod set;
mod turning;
