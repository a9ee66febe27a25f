use std::collections::LinkedList;

/// A step on the word of a slot: the number of the badge that made it, what it found there, and what it left.
///
/// No value of it is made: the rule and the contracts alone speak of it.
pub struct Access {
    pub by: u64,
    pub slot: u64,
    pub found: u64,
    pub left: u64,
}

/// What a badge knows. No value of it is made: the rule and the contracts alone speak of it.
pub struct View<T> {
    pub number: u64,
    // Until the badge is joined into the first one.
    pub live: bool,
    // The slots that it has, the one claimed last before the others.
    pub claimed: LinkedList<u64>,
    // The slots that it was refused, each with the word that the claim read, the last one at the end.
    pub refused: LinkedList<(u64, u64)>,
    // How many badges were split off it.
    pub splits: u64,
    // The numbers of those that weren't joined yet.
    pub out: LinkedList<u64>,
    // The numbers of those that were, the last one at the end.
    pub joined: LinkedList<u64>,
    // The accesses of all badges up to the last one of its own, the latest before the others.
    pub history: LinkedList<Access>,
    // The items that the pool was made of.
    pub firsts: LinkedList<T>,
}
