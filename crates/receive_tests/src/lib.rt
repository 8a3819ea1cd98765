//! Tests of the top call on what is received: captures that are damaged, moved, cut and long.
#![tactic(auto)]

#[cfg(test)]
mod columns;
#[cfg(test)]
mod decoding;
#[cfg(test)]
mod headline;
#[cfg(test)]
mod impairs;
#[cfg(test)]
mod reports;
#[cfg(test)]
mod streaming;
