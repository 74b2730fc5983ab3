//! Each call of rp_book, once on its happy path, with its answer compared.
#![tactic(auto)]

#[cfg(test)]
mod books;
#[cfg(test)]
mod handling;
#[cfg(test)]
mod samples;
