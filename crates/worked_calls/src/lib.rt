//! Single calls, with numbers and files at their edges, against values that were worked
//! out apart. It has tests alone; what can be written as a table stands in `worked_rows`.
#![tactic(auto)]

#[cfg(test)]
mod cert;
#[cfg(test)]
mod expecting;
#[cfg(test)]
mod farkas;
#[cfg(test)]
mod linear;
#[cfg(test)]
mod maker;
#[cfg(test)]
mod messages;
#[cfg(test)]
mod report;
#[cfg(test)]
mod shelf;
#[cfg(test)]
mod simplex;
#[cfg(test)]
mod smt;
#[cfg(test)]
mod template;
#[cfg(test)]
mod walk;
