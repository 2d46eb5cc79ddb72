//! Tests of certificates, blocks, verdicts, endorsements and renewals against stored ones of another program.
#![tactic(auto)]

#[cfg(test)]
mod block_tests;
#[cfg(test)]
mod certificate_tests;
#[cfg(test)]
mod key_tests;
#[cfg(test)]
mod next_key_tests;
#[cfg(test)]
mod renewal_tests;
#[cfg(test)]
mod renewed;
#[cfg(test)]
mod several_keys;
#[cfg(test)]
mod stored;
#[cfg(test)]
mod verdict_tests;
#[cfg(test)]
mod weight_tests;
