//! Whether asks of the view, and its replies, are the same.

use crate::equality::same::Same;
use tq_live::{ViewAsk, ViewReply};

impl Same for ViewAsk {
    fn is_same(&self, other: &ViewAsk) -> bool {
        *self == *other
    }
}

impl Same for ViewReply {
    fn is_same(&self, other: &ViewReply) -> bool {
        *self == *other
    }
}
