//! Runs of the program's top call over devices in memory. The tests are all that is here.
#![tactic(auto)]

#[cfg(test)]
mod command_line;
#[cfg(test)]
mod failures;
#[cfg(test)]
mod gates;
#[cfg(test)]
mod lists;
#[cfg(test)]
mod runs;
#[cfg(test)]
mod tests;
