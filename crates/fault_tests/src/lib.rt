//! Tests of hostile use: streams that fail or end early, and what is read and written then.
#![tactic(auto)]

#[cfg(test)]
mod commands;
#[cfg(test)]
mod failing;
#[cfg(test)]
mod faults;
#[cfg(test)]
mod prefixes;
#[cfg(test)]
mod reading;
#[cfg(test)]
mod std_streams;
