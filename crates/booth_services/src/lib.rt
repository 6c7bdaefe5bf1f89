//! Services that follow a ticket at the sites of a world: two of them never run at the same time, unless a site
//! released its lease. The laws are the contracts of functions that do nothing. The crate also has an example run of
//! `boothd`, with a world that contains it.
#![tactic(auto)]

pub mod examples;
pub mod laws;
