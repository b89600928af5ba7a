//! Tests through the public calls on a rack: every returned number at its edge and in its order, words, cycles with the requests that a line is given,
//! projections, and a run with a plant.
#![tactic(auto)]

#[cfg(test)]
mod cycles;
#[cfg(test)]
mod images;
#[cfg(test)]
mod plant;
#[cfg(test)]
mod projections;
#[cfg(test)]
mod queue;
#[cfg(test)]
mod refusals;
#[cfg(test)]
mod requests;
#[cfg(test)]
mod script;
#[cfg(test)]
mod words;
