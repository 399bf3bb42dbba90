//! Tests of the public calls of the crates of OTLP: lists, telemetry and its load, requests, and captures.
#![tactic(auto)]

#[cfg(test)]
mod base_lists;
#[cfg(test)]
mod capture;
#[cfg(test)]
mod capture_events;
#[cfg(test)]
mod capture_statuses;
#[cfg(test)]
mod codec;
#[cfg(test)]
mod load;
#[cfg(test)]
mod model;
