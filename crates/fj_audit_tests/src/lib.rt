//! Tests of auditors: what each notes of certificates, and lists of boxed ones that are handed a certificate and swept.
#![tactic(auto)]

#[cfg(test)]
mod certificates;
#[cfg(test)]
mod handing;
#[cfg(test)]
mod notes;
