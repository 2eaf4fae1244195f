//! What a pass to the queue of jobs knows.

use std::collections::LinkedList;

/// What a pass knows. No value of it is made.
pub struct Hand {
    /// The greatest gno that it pushed, 0 if it pushed none.
    pub pushed: u64,
    /// The gnos of the jobs that it stole, the last one first.
    pub stolen: LinkedList<u64>,
}
