//! The desk of a shop, whose orders are traced on two lanes, over any stack. The program `example_shop` gives it one.
#![tactic(auto)]

pub mod desk;
pub mod fault;
pub mod order_values;
pub mod payment;
pub mod sites;
