//! Streams whose suspensions are kept in a table: the stream of a goal, and what forcing a
//! suspension gives.
#![tactic(auto)]

mod appending;
mod asserting;
mod atomic_goals;
mod call_goals;
mod compound_goals;
mod copies;
mod forcing;
mod forcing_once;
mod linked_ids;
mod linked_nodes;
mod nodes;
mod plain_nodes;
mod running;
mod streams;
mod tasks;

pub use appending::{append, put_last, reversed};
pub use copies::stores_again;
pub use forcing::force;
pub use forcing_once::force_once;
pub use linked_ids::LinkedId;
pub use linked_nodes::LinkedNodes;
pub use nodes::{Closed, Innermost, Nodes, Parted};
pub use plain_nodes::{PlainId, PlainNodes};
pub use running::{bind_all, run_goal};
pub use streams::{Stores, Stream, Thunk};
