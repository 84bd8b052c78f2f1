//! Graphs of makefile targets: nodes, cycles and the serial order.
#![tactic(auto)]

mod bit_rows;
mod bit_words;
mod fault;
mod graph;
mod greedy;
mod groups;
pub mod laws;
pub mod list_laws;
mod node;
mod node_set;
mod order;
mod prerequisites;
mod rows;
mod schedule;
pub mod schedule_laws;
mod walk;
mod wanted;
mod without;

pub use bit_rows::BitRows;
pub use bit_words::{meet, unite};
pub use fault::GraphFault;
pub use graph::{Graph, MAX_NODES};
pub use greedy::Greedy;
pub use groups::Groups;
pub use node::Node;
pub use node_set::NodeSet;
pub use order::Order;
pub use schedule::schedule_without;
pub use wanted::wanted_with;
pub use without::Without;
