//! Tests of what no output of the program shows: threads that wait for one another inside the locks of parts, what a cell
//! tells, a client that reads its own write, boards of a running cluster, and small limits.
#![tactic(auto)]

#[cfg(test)]
mod boards;
#[cfg(test)]
mod cells;
#[cfg(test)]
mod clients;
#[cfg(test)]
mod gates;
