//! Tests of plays and prints whose streams fail or are interrupted.
#![tactic(auto)]

#[cfg(test)]
mod streams;
