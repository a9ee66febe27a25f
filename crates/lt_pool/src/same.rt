/// An item that can be told from other items, however it has changed.
///
/// It has no calls: contracts alone speak of it.
pub trait Same: Drop {
    /// The second value is the first, maybe further on.
    ghost continues: { Self → Self → Type 0 };

    /// Each value continues itself.
    ghost continues_itself: { (x : Self) → continues x x };
}
