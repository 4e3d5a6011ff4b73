//! Devices in memory, and data read and printed, with ample memory. The tests are all that is here.
#![tactic(auto)]

#[cfg(test)]
mod devices;
#[cfg(test)]
mod printing;
#[cfg(test)]
mod reading;
