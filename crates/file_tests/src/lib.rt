//! Tests of files that share bytes until one of them is written, against plain vectors.
#![tactic(auto)]

#[cfg(test)]
mod pair;
#[cfg(test)]
mod shared_files;
#[cfg(test)]
mod vectors;
