//! The tests of what keeps a desktop, one module a topic: disks and what fails on them, disks in files, bytes in
//! sectors, stores, stops at each call of a disk and the crashes that follow, runs of calls, scripts that are played, and
//! reports of how they end.
//!
//! They stand in a crate of their own, since a crate with tests is proved twice. What a module tests is what no clause
//! says: worked rows, bytes as they are printed, that a call can succeed, and what happens where a device or an
//! allocation fails in mid-stream. Most tests are tables: `disks` does what a row says to a disk in memory, and `stops`
//! stops a script at each call. Texts, events and desktops are tested by `desk_tests`; nothing here stands on these.
#![tactic(auto)]

#[cfg(test)]
mod devices;
#[cfg(test)]
mod disks;
#[cfg(test)]
mod files;
#[cfg(test)]
mod playing;
#[cfg(test)]
mod reports;
#[cfg(test)]
mod runs;
#[cfg(test)]
mod stops;
#[cfg(test)]
mod stores;
#[cfg(test)]
mod streams;
