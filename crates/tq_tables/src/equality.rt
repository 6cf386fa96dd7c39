//! Whether two asks, two replies or two entries are the same.

mod desk;
mod node;
mod same;
mod view;

pub use same::{Same, begins, is_same_entry};
