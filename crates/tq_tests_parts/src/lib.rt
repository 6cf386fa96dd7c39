//! Tests of public calls that the program never makes, and of what it shows nowhere: servers of a tree and sets of them,
//! the coterie, names as text, locks, stable records, the view's tree, parts with their journals, copies of parts; and of what
//! the product writes over devices: where one fails, and where a tree and a content are as large as any.
#![tactic(auto)]

#[cfg(test)]
mod check;
#[cfg(test)]
mod desk;
#[cfg(test)]
mod devices;
#[cfg(test)]
mod large;
#[cfg(test)]
mod live;
#[cfg(test)]
mod locks;
#[cfg(test)]
mod node;
#[cfg(test)]
mod scripts;
#[cfg(test)]
mod values;
