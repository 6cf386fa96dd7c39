//! What no program calls or prints: a service that is given steps, its rows after each of them, the end of transactions
//! after each stop of a server, stable records, the tables of whole journals, a board beside another view, each kind of
//! entry written as it was read, answers that no part of a client's world gives, an entry that is reserved, and evidence that
//! breaks one rule. And the library in use, as README.md shows it.
#![tactic(auto)]

#[cfg(test)]
mod asked;
#[cfg(test)]
#[cfg(test)]
mod evidence;
#[cfg(test)]
mod foreign;
#[cfg(test)]
mod full;
#[cfg(test)]
mod inside;
#[cfg(test)]
mod library;
#[cfg(test)]
mod recorded;
#[cfg(test)]
mod reserved;
#[cfg(test)]
mod rows;
#[cfg(test)]
mod runs;
#[cfg(test)]
mod stepped;
#[cfg(test)]
mod stopped;
#[cfg(test)]
mod unfounded;
#[cfg(test)]
mod written;
