ghost use Rattle.lt_keys.specs.Laws.{KeySetsAre};

/// Each set of a key is one of those of keys. Without a parent it is the root of a family; with one it is another set
/// of the family whose root is that of the parent, so a key and its parent never have the same set.
pub fn law_key_sets()
    ensures { KeySetsAre }
{}
