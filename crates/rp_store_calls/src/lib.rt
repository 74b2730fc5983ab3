//! The calls of stores, with failing calls, crashes and damaged files.
#![tactic(auto)]

#[cfg(test)]
mod crashes;
#[cfg(test)]
mod damage;
pub mod helpers;
pub mod long;
#[cfg(test)]
mod saves;
#[cfg(test)]
mod system;
