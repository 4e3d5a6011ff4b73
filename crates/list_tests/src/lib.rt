//! Lists, operators, functions on elements, pipes, skeletons on lists and tickets, with ample memory.
//! The tests are all that is here.
#![tactic(auto)]

#[cfg(test)]
mod functions;
#[cfg(test)]
mod operators;
#[cfg(test)]
mod pipes;
#[cfg(test)]
mod skeletons;
#[cfg(test)]
mod tickets;
#[cfg(test)]
mod values;
