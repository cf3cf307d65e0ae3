//! Worked rows of the crates below, as tables of inputs and what must come of them.
#![tactic(auto)]

#[cfg(test)]
mod codes;
#[cfg(test)]
mod containers;
#[cfg(test)]
mod edges;
#[cfg(test)]
mod files;
#[cfg(test)]
mod hostile_codes;
#[cfg(test)]
mod journals;
#[cfg(test)]
mod locks;
#[cfg(test)]
mod made;
#[cfg(test)]
mod mails;
#[cfg(test)]
mod maps;
#[cfg(test)]
mod messages;
#[cfg(test)]
mod packing;
#[cfg(test)]
mod printing;
#[cfg(test)]
mod replies;
#[cfg(test)]
mod scripts;
#[cfg(test)]
mod set_faults;
#[cfg(test)]
mod turns;
#[cfg(test)]
mod values;
#[cfg(test)]
mod words;
