//! Tests that start threads: cases driven on systems, ledgers that threads share, and trials of plans.
#![tactic(auto)]

#[cfg(test)]
mod clients;
#[cfg(test)]
mod driving;
#[cfg(test)]
mod ledgers;
#[cfg(test)]
mod overhearing;
#[cfg(test)]
mod samples;
#[cfg(test)]
mod systems;
#[cfg(test)]
mod test_systems;
#[cfg(test)]
mod timing;
#[cfg(test)]
mod trials;
