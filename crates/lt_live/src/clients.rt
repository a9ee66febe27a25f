// Some of a script's clients, a bit for each.
ghost use Rattle.std.specs.Prelude.{◌≡◌, ◌≢◌, ◌<◌, ℕ, true, false};
ghost use Rattle.lt_live.specs.Told.{has_mark, word_has, OtherBitsStay};
ghost use Rattle.lt_spec.specs.declared.limits.TheConstants.{MAX_CLIENTS};

/// Some of a script's clients: client c is among them where bit c % 64 of word c / 64 is set.
#[repr(C)]
#[derive(Clone, Copy, Debug, PartialEq, Eq)]
pub struct Clients {
    pub words: [u64; 16],
}

impl Clients {
    /// No client.
    pub fn none() -> Clients
        ensures { (client : ℕ) → has_mark result client ≡ false }
    {
        Clients { words: [0; 16] }
    }

    /// No client is among them any more.
    pub fn clear(&mut self)
        ensures { (client : ℕ) → has_mark self.new client ≡ false }
    {
        self.words = [0; 16];
    }

    /// The client is among them.
    pub(crate) fn insert(&mut self, client: u16)
        requires { client < MAX_CLIENTS }
        ensures own { has_mark self.new client ≡ true }
        ensures others { (other : ℕ) → other ≢ client → has_mark self.new other ≡ has_mark self.old other }
    {
        set_bit(&mut self.words, client);
    }
}

fn set_bit(words: &mut [u64; 16], number: u16)
    requires { number < 1024 }
    ensures own { word_has words.new number ≡ true }
    ensures others { OtherBitsStay number words.old words.new }
{
    words[usize::from(number / 64)] |= 1 << (number % 64);
}
