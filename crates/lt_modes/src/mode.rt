ghost use Rattle.std.specs.Prelude.{◌≡◌, ◌≢◌, IfSome, IfNone};
ghost use Rattle.lt_modes.specs.Modes.{conflicts, excludes_itself, word_of, mode_of};
ghost use Rattle.lt_modes.specs.FiveModes.{is_of_five};
ghost use Rattle.std.specs.Str.{bytes_eq};
ghost use Rattle.lt_modes.specs.declared.mode.Mode.{Mode as AnyMode};

/// The strength of a lock. Modes are listed in this order everywhere.
#[derive(Clone, Copy, Debug, PartialEq, Eq, Hash)]
pub enum Mode {
    IntentionRead,
    Read,
    Upgrade,
    IntentionWrite,
    ReadIntentionWrite,
    Write,
}

/// All modes, in order.
pub const MODES: [Mode; 6] = [
    Mode::IntentionRead,
    Mode::Read,
    Mode::Upgrade,
    Mode::IntentionWrite,
    Mode::ReadIntentionWrite,
    Mode::Write,
];

impl Mode {
    /// Whether two clients may not hold locks of these modes in one set at the same time.
    #[tactic(auto, unfolding(crate::specs::Modes::conflicts))]
    pub fn conflicts(self, other: Mode) -> bool
        ensures { result ≡ conflicts self other }
    {
        match self {
            Mode::IntentionRead => other == Mode::Write,
            Mode::Read => {
                other == Mode::IntentionWrite
                    || other == Mode::ReadIntentionWrite
                    || other == Mode::Write
            }
            Mode::Upgrade => other != Mode::IntentionRead && other != Mode::Read,
            Mode::IntentionWrite => other != Mode::IntentionRead && other != Mode::IntentionWrite,
            Mode::ReadIntentionWrite => other != Mode::IntentionRead,
            Mode::Write => true,
        }
    }

    /// Whether at most one client can hold a lock of this mode.
    pub fn taking(self) -> bool
        ensures { result ≡ excludes_itself self }
    {
        self.conflicts(self)
    }

    /// Whether it is one of the five modes of version 1 of a script.
    pub fn is_of_five(self) -> bool
        ensures { result ≡ is_of_five self }
    {
        self != Mode::ReadIntentionWrite
    }

    /// The mode's word in scripts and journals.
    pub fn word(self) -> &'static str
        ensures { result.now ≡ word_of self }
    {
        match self {
            Mode::IntentionRead => "intention_read",
            Mode::Read => "read",
            Mode::Upgrade => "upgrade",
            Mode::IntentionWrite => "intention_write",
            Mode::ReadIntentionWrite => "read_intention_write",
            Mode::Write => "write",
        }
    }

    /// The mode with this word.
    #[inline(always)]
    pub fn from_word(word: &[u8]) -> Option<Mode>
        ensures found { IfSome result (λ mode. word.now ≡ word_of mode) }
        ensures none { IfNone result ((mode : AnyMode) → word.now ≢ word_of mode) }
        ensures value { result ≡ mode_of word.now }
    {
        if is(word, "intention_read") {
            Some(Mode::IntentionRead)
        } else if is(word, "read") {
            Some(Mode::Read)
        } else if is(word, "upgrade") {
            Some(Mode::Upgrade)
        } else if is(word, "intention_write") {
            Some(Mode::IntentionWrite)
        } else if is(word, "read_intention_write") {
            Some(Mode::ReadIntentionWrite)
        } else if is(word, "write") {
            Some(Mode::Write)
        } else {
            None
        }
    }
}

// Whether the bytes are those of the text.
fn is(word: &[u8], text: &str) -> bool
    ensures { result ≡ bytes_eq word.now text.now }
{
    word == text.as_bytes()
}
