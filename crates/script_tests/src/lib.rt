//! Scripts typed, planned, fitted to data and run, with ample memory. The tests are all that is here.
#![tactic(auto)]

#[cfg(test)]
mod fitting;
#[cfg(test)]
mod plans;
#[cfg(test)]
mod running;
#[cfg(test)]
mod typing;
