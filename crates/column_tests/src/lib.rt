//! Tests of the public calls of the crates of OTAP tables: cells, attributes, dictionaries and columns.
#![tactic(auto)]

#[cfg(test)]
mod attrs;
#[cfg(test)]
mod cells;
#[cfg(test)]
mod columns;
#[cfg(test)]
mod dicts;
