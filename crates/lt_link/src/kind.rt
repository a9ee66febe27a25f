use lt_modes::Stamp;

/// What the way of a letter to the desk depends on.
#[derive(Clone, Copy, Debug, PartialEq, Eq)]
pub enum Kind {
    Ask {
        stamp: Stamp,
        /// Whether it came by a hoped link.
        by_hoped: bool,
        /// Whether a taking ask of the node's own clients is unanswered and older.
        older_taking: bool,
    },
    Tell,
}

/// Where a letter goes from a node that hasn't the desk.
#[derive(Clone, Copy, Debug, PartialEq, Eq)]
pub enum Route {
    /// Nowhere: it waits here for the token.
    Park,
    /// To the node that the firm link names.
    Firm(u8),
    /// To the node that the hoped link names, marked as coming by a hoped link.
    Hoped(u8),
}
