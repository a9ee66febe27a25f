ghost use Rattle.lt_frames.specs.Laws.{FramesAreRead, ReadFramesAreWritten, FrameFaultsHaveCauses, FramesArePrefix, SealedArePrefix};

/// A frame is read again under the key that it was sealed with, whatever follows it, and nothing else is read as a
/// frame of its wire. So where the bytes of some frames are first ones of those of others, the frames are. And where
/// each frame that was taken in with the next number has the seal of one that was given out, and no other frame with
/// such a seal was taken in, the letters that were taken in are first ones of those that were given out.
pub fn law_frames()
    ensures read { FramesAreRead }
    ensures written { ReadFramesAreWritten }
    ensures faults { FrameFaultsHaveCauses }
    ensures first { FramesArePrefix }
    ensures sealed { SealedArePrefix }
{}
