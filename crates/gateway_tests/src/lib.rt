//! Tests of the public calls of the exporter and of the program.
#![tactic(auto)]

#[cfg(test)]
mod gateway;
#[cfg(test)]
mod produce;
#[cfg(test)]
mod resend;
