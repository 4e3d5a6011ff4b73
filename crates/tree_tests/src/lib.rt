//! Trees cut into bridges, and the operators of the catalogue contracted over them. The tests are
//! all that is here.
#![tactic(auto)]

#[cfg(test)]
mod cuts;
#[cfg(test)]
mod dispatch;
#[cfg(test)]
mod down;
#[cfg(test)]
mod downward;
#[cfg(test)]
mod names;
#[cfg(test)]
mod shapes;
#[cfg(test)]
mod trees;
#[cfg(test)]
mod up;
#[cfg(test)]
mod upward;
