//! Tests of the signing service: a connection's calls and what goes out for them; which votes of a certificate are checked again.
#![tactic(auto)]

#[cfg(test)]
mod calls;
#[cfg(test)]
mod votes;
