//! Worked rows of the calls that begin with a script: its refusals, predicates, partitions and sessions.
#![tactic(auto)]

#[cfg(test)]
mod asking;
#[cfg(test)]
mod bounded_scripts;
#[cfg(test)]
mod limit_refusals;
#[cfg(test)]
mod partition_cases;
#[cfg(test)]
mod partitions;
#[cfg(test)]
mod plain_checks;
#[cfg(test)]
mod predicates;
#[cfg(test)]
mod quanta;
#[cfg(test)]
mod ranges;
#[cfg(test)]
mod read_scripts;
#[cfg(test)]
mod refusals;
#[cfg(test)]
mod replying;
#[cfg(test)]
mod serving;
#[cfg(test)]
mod sessions;
