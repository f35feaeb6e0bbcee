// The mailboxes.
#![tactic(auto)]

use rings::links::Links;
pub use rings::links::{BOX_NODES, bytes_of};
use sizes::Bid;

/// The node after each node, and the node before it: a node is a buffer, or the head of mailbox m, at BUFFERS + m. A buffer in no mailbox is linked to itself.
pub type Boxes = Links<Bid, BOX_NODES>;
