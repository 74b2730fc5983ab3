//! Whole races through the top calls: threads that are held, scripts and words that are refused, faults.
#![tactic(auto)]

#[cfg(test)]
mod gates;
#[cfg(test)]
mod held;
#[cfg(test)]
mod plain;
#[cfg(test)]
mod refused;
#[cfg(test)]
mod reports;
#[cfg(test)]
mod tops;
