//! Scripts and reports, and whole plays through the top calls.
#![tactic(auto)]

#[cfg(test)]
mod lines;
#[cfg(test)]
mod report;
#[cfg(test)]
mod script;
#[cfg(test)]
mod scripts;
#[cfg(test)]
mod top;
#[cfg(test)]
mod words;
