//! Tests of the program over words, files and streams of their own: its texts and statuses, and what comes where a read or a write fails.
#![tactic(auto)]

#[cfg(test)]
mod asking;
#[cfg(test)]
mod check_tests;
#[cfg(test)]
mod device_tests;
#[cfg(test)]
mod frame_tests;
#[cfg(test)]
mod handing_tests;
#[cfg(test)]
mod header_tests;
#[cfg(test)]
mod keeping_tests;
#[cfg(test)]
mod lasting_tests;
#[cfg(test)]
mod more_tests;
#[cfg(test)]
mod name_tests;
#[cfg(test)]
mod page_tests;
#[cfg(test)]
mod pieces_tests;
#[cfg(test)]
mod set_tests;
#[cfg(test)]
mod stores;
#[cfg(test)]
mod target_tests;
#[cfg(test)]
mod tests;
#[cfg(test)]
mod verdict_tests;
