//! What a slot and its key know of a value.
/// A value that may be in a slot.
pub trait Marked {
    /// What a slot is made for.
    type Tag;

    /// What the holder of a slot's key knows.
    type Mark;

    /// Which values may be in a slot that is made for this.
    ghost fits: { Self.Tag → Self → Type 0 };

    /// What the holder of the key knows of a value.
    ghost mark: { Self → Self.Mark };
}
