//! Tests of a target and its clients over memory devices, by public contracts.
#![tactic(auto)]

#[cfg(test)]
mod bounds;
#[cfg(test)]
mod caching;
#[cfg(test)]
mod clean;
#[cfg(test)]
mod errands;
#[cfg(test)]
mod faults;
#[cfg(test)]
mod files;
#[cfg(test)]
mod fixture;
#[cfg(test)]
mod hooked;
#[cfg(test)]
mod memory;
#[cfg(test)]
mod questions;
#[cfg(test)]
mod requests;
#[cfg(test)]
mod retiring;
#[cfg(test)]
mod sharing;
#[cfg(test)]
mod suspends;
#[cfg(test)]
mod threads;
#[cfg(test)]
mod unclean;
#[cfg(test)]
mod waiting;
#[cfg(test)]
mod workers;
