//! Tests of the libraries: what no contract says of them. A file for each library, which is named as its crate.
#![tactic(auto)]

#[cfg(test)]
mod base;
#[cfg(test)]
mod bits;
#[cfg(test)]
mod cases;
#[cfg(test)]
mod cavlc;
#[cfg(test)]
mod deblock;
#[cfg(test)]
mod dpb;
#[cfg(test)]
mod header;
#[cfg(test)]
mod header_cases;
#[cfg(test)]
mod inter;
#[cfg(test)]
mod intra;
#[cfg(test)]
mod lists;
#[cfg(test)]
mod macroblocks;
#[cfg(test)]
mod marking;
#[cfg(test)]
mod mbsyntax;
#[cfg(test)]
mod near;
#[cfg(test)]
mod parameter_sets;
#[cfg(test)]
mod plane;
#[cfg(test)]
mod poc;
#[cfg(test)]
mod rbsp;
#[cfg(test)]
mod recon;
#[cfg(test)]
mod references;
#[cfg(test)]
mod scale;
#[cfg(test)]
mod sets;
#[cfg(test)]
mod sinks;
#[cfg(test)]
mod streams;
#[cfg(test)]
mod tables;
#[cfg(test)]
mod units;
#[cfg(test)]
mod vectors;
#[cfg(test)]
mod write;
