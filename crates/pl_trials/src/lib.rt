//! Trials of crates together: a plant over the technology of real prints.
#![tactic(auto)]

#[cfg(test)]
mod keys;
#[cfg(test)]
mod lock;
#[cfg(test)]
mod plants;
#[cfg(test)]
mod runners;
#[cfg(test)]
mod stopping;
#[cfg(test)]
mod trial;
#[cfg(test)]
mod workers;
