//! Least-cost quorums of a tree whose servers have costs and marks, and the view that keeps them by asks and replies.
//!
//! Definitions: `specs/Live`, `Least`, `View`; `Kept` is the code's own word.
#![tactic(auto)]

mod answers;
mod choice;
mod costs;
mod least;
mod node;
mod purpose;
mod tree;
mod view;
mod weight;

pub use choice::Choice;
pub use costs::{BadCost, Costs, MOST_COST, is_cost};
pub use least::Least;
pub use purpose::Purpose;
pub use tree::{LiveTree, Turns};
pub use view::{View, ViewAsk, ViewChange, ViewRefusal, ViewReply};
