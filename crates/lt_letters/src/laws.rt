ghost use Rattle.lt_letters.specs.Laws.{WrittenIsRead, ReadIsWritten, FaultsHaveCauses, BytesArePrefix};

/// Each letter has one spelling, which is read again whatever follows it, and nothing else is read as a letter. So
/// where the bytes that were brought are first ones of those that were given out, the letters are.
pub fn law_letters()
    ensures read { WrittenIsRead }
    ensures written { ReadIsWritten }
    ensures faults { FaultsHaveCauses }
    ensures first { BytesArePrefix }
{}
