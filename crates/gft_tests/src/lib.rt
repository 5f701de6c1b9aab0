//! Tests of what needs objects in memory: devices that fail, streams at their limits, stores that
//! tell their files.
#![tactic(auto)]

#[cfg(test)]
mod lines;
#[cfg(test)]
mod sessions;
