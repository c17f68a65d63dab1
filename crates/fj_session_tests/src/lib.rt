//! Tests of whole sessions, from their bytes to what is written, where all goes well and where the outside fails. Expected
//! values were worked by hand, or are those of the literature.
#![tactic(auto)]

#[cfg(test)]
mod auditing;
#[cfg(test)]
mod cutting;
#[cfg(test)]
mod failing;
#[cfg(test)]
mod lets;
#[cfg(test)]
mod limits;
#[cfg(test)]
mod running;
#[cfg(test)]
mod sessions;
#[cfg(test)]
mod shapes;
#[cfg(test)]
mod whole;
#[cfg(test)]
mod words;
