// The process queues.
#![tactic(auto)]

use rings::links::Links;
pub use rings::links::{QUEUE_NODES, bytes_of};
use sizes::Pid;

pub mod notes;

/// The node after each node, and the node before it: a node is a process, or the head of queue q, at PROCESSES + q. A process in no queue is linked to itself.
pub type Queues = Links<Pid, QUEUE_NODES>;
