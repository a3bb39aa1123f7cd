//! Tests of the crates whose steps change shared words, one by one or by threads. They stand in a crate of their own, since a crate with tests is
//! proved twice.
#![tactic(auto)]

#[cfg(test)]
mod cast_words;
#[cfg(test)]
mod casting;
#[cfg(test)]
mod changed;
#[cfg(test)]
mod draws;
#[cfg(test)]
mod turns;
#[cfg(test)]
mod withdraw_words;
#[cfg(test)]
mod withdrawing;
