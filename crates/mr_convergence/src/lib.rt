//! The laws of convergence: replicas that accept nothing new and go on exchanging come to know the same, and to answer alike.
//! It stands on `mr_model`; the worlds of `mr_service`, above it, keep these laws. README.md says what is where.
#![tactic(auto)]

pub mod offices;
