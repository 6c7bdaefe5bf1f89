//! Simulations of small clusters, the first of them worked manually, entry by entry.
mod by_hand;
mod summaries;
