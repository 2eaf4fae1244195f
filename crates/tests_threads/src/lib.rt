//! Tests with threads: both sides under their locks, and what readers see. They cover what no contract says.
//!
//! `replicas` and `sources` have the tests of a side: a course for each (`courses`, of a replica), how the side is made for
//! it, and how it ends.
//! What a course does is a method of `ReplicaRig` or `SourceRig`. Those of a source are in `sessions`, `held` and `logs`,
//! and those of a replica in `workers`, `meanwhile` and `wires`; `steps` has the calls that these share. `publishing` has
//! what readers see of a publisher without a replica, and `jobs` the queue of jobs by itself.
#![tactic(auto)]

#[cfg(test)]
mod courses;
#[cfg(test)]
mod desk;
#[cfg(test)]
mod device;
#[cfg(test)]
mod gates;
#[cfg(test)]
mod held;
#[cfg(test)]
mod jobs;
#[cfg(test)]
mod logs;
#[cfg(test)]
mod makers;
#[cfg(test)]
mod meanwhile;
#[cfg(test)]
mod publishing;
#[cfg(test)]
mod replicas;
#[cfg(test)]
mod sessions;
#[cfg(test)]
mod sources;
#[cfg(test)]
mod steps;
#[cfg(test)]
mod stores;
#[cfg(test)]
mod wires;
#[cfg(test)]
mod workers;
