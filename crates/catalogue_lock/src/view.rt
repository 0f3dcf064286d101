//! What the threads know of the lock, as plain data for its rule. No value of `Claim`, `Stage` or `View` is ever made.
use std::collections::LinkedList;

/// An item of the lock's history, with the number of the pass whose turn added it, or with none where the object brought it.
pub struct Numbered<I> {
    pub by: Option<u32>,
    pub item: I,
}

/// A pass number, and the items that its turns added.
pub struct Claim<I> {
    pub number: u32,
    pub items: LinkedList<I>,
}

/// Where a seat stands: it holds no ticket, it waits with one, or it is in turn with one.
pub enum Stage {
    Idle,
    Waits(u64),
    InTurn(u64),
}

/// What one seat of the table knows.
pub struct View<O, I> {
    /// It is the first view, which opens the lock.
    pub opening: bool,
    /// The object that `new` took.
    pub opened: Option<O>,
    pub stage: Stage,
    /// How many tickets it has drawn.
    pub draws: u64,
    pub claims: LinkedList<Claim<I>>,
    /// A beginning of the history.
    pub seen: LinkedList<Numbered<I>>,
    /// What two views had seen that were made one.
    pub olds: LinkedList<LinkedList<Numbered<I>>>,
}

/// What the lock is told once: the object that it takes, and how many passes it has.
pub struct Terms<O> {
    pub object: O,
    pub callers: u32,
}
