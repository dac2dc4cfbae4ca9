//! How what is mapped stands for a history: leaves, buffers, requests to flush, and brackets in progress.
#![tactic(auto)]

mod leaf;

pub use leaf::leaf_of;
