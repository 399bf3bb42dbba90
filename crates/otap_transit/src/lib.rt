//! The law on both ends: what the exporter's policy allows is read, by the definitions of the format, as the same telemetry.
#![tactic(auto)]

pub mod laws;
