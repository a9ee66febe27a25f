// The names of a script, kept as a journal has them.
ghost use Rattle.std.specs.Prelude.{◌≡◌, ◌≤◌, ◌++◌, OnOk, IfOk, IfSome, length};
ghost use Rattle.lt_modes.specs.Modes.{word_of};
ghost use Rattle.lt_modes.specs.Script.{set_name, client_name};
ghost use Rattle.lt_modes.specs.declared.moves.Step.TheVariants.{Act};
ghost use Rattle.lt_modes.specs.declared.event.Event.TheVariants.{Token};
ghost use Rattle.lt_text.specs.Text.{after_space};
ghost use Rattle.lt_journal.specs.declared.line.Line.TheVariants.{Move as MoveLine, Event as EventLine};
ghost use Rattle.lt_journal.specs.RunLines.{line, line_text, lock_words};
ghost use Rattle.lt_journal.specs.Wording.{AreClientWords, AreSetWords, AreLockWords};

use crate::events::{lock, words_of_event, words_of_move};
use crate::names::{client_name, set_name};
use crate::padded::Padded;
use crate::text::Text;
use lt_modes::{Event, MODES, Mode, Step, place};
use lt_script::Script;
use std::alloc::{AllocError, Global};
use std::marker::Model;

// A client, and its name with the space before it, where that is short.
#[derive(Debug, Drop)]
pub(crate) struct ClientWord {
    client: u16,
    word: Option<Padded>,
}

// A set, and its name with the space before it, where that is short.
#[derive(Debug, Drop)]
pub(crate) struct SetWord {
    set: u32,
    word: Option<Padded>,
}

// A set and a mode, and their words with the spaces before them, where these are short.
#[derive(Debug, Drop)]
pub(crate) struct LockWords {
    set: u32,
    mode: Mode,
    words: Option<Padded>,
}

/// A script with its names as a journal has them, so that they are written fast. Each entry says what it is of: one
/// that stands at another place is passed over, and the name is taken from the script.
pub struct Wording {
    script: Script,
    clients: Vec<ClientWord>,
    sets: Vec<SetWord>,
    locks: Vec<LockWords>,
}

impl Model for Wording {
    ghost use Rattle.lt_modes.specs.Script.{ScriptData};
    ghost use Rattle.lt_journal.specs.Wording.{AreClientWords, AreSetWords, AreLockWords};

    ghost Value = { ScriptData };

    ghost view = { λ s. s.script };

    ghost invariant = { λ s. AreClientWords s.script s.clients.items × AreSetWords s.script s.sets.items
        × AreLockWords s.script s.locks.items };
}

// Written out, so that all places which let a wording go call this.
impl Drop for Wording {
    fn drop(self) {
        let Wording {
            script,
            clients,
            sets,
            locks,
        } = self;
        drop(script);
        drop(clients);
        drop(sets);
        drop(locks);
    }
}

impl Wording {
    /// The names of the script, of which it keeps a copy.
    pub fn new(alloc: Global, script: &Script) -> Result<Wording, AllocError>
        ensures { IfOk result (λ s. s ≡ script.now) }
    {
        let clients = client_words(alloc, script)?;
        let sets = set_words(alloc, script)?;
        let locks = lock_words(alloc, script)?;
        let script = script.copy(alloc)?;
        Ok(Wording {
            script,
            clients,
            sets,
            locks,
        })
    }

    pub fn script(&self) -> &Script
        ensures { result.now ≡ self.now }
    {
        &self.script
    }

    /// Writes the client's name as a later word of a line.
    #[inline(always)]
    pub(crate) fn client(&self, text: &mut Text, client: u16) -> Result<(), AllocError>
        ensures { OnOk result (text.new ≡ text.old ++ after_space (client_name self.now client)) }
    {
        match self.word_of_client(client) {
            Some(word) => text.padded(word),
            None => text.word(client_name(&self.script, client)),
        }
    }

    /// Writes the line of a move that acts for the client.
    #[inline(always)]
    pub(crate) fn act_line(
        &self,
        text: &mut Text,
        clock: u64,
        node: u8,
        client: u16,
    ) -> Result<(), AllocError>
        ensures { OnOk result (text.new ≡ text.old ++ line_text self.now (MoveLine clock node (Act client))) }
    {
        if let Some(word) = self.word_of_client(client) {
            return text.act_line(clock, node, word);
        }
        words_of_move(text, &self.script, clock, node, Step::Act(client))?;
        text.end_line()
    }

    /// Writes the set's name as a later word of a line.
    #[inline(always)]
    pub(crate) fn set(&self, text: &mut Text, set: u32) -> Result<(), AllocError>
        ensures { OnOk result (text.new ≡ text.old ++ after_space (set_name self.now set)) }
    {
        match self.word_of_set(set) {
            Some(word) => text.padded(word),
            None => text.word(set_name(&self.script, set)),
        }
    }

    /// Writes a line of a first word, a client, a set and a mode.
    #[inline(always)]
    pub(crate) fn lock_line(
        &self,
        text: &mut Text,
        first: &[u8],
        client: u16,
        set: u32,
        mode: Mode,
    ) -> Result<(), AllocError>
        requires { length first.now ≤ 8 }
        ensures { OnOk result (text.new ≡ text.old ++ line (lock_words self.now first.now client set mode)) }
    {
        if let Some(name) = self.word_of_client(client) {
            if let Some(words) = self.words_of_lock(set, mode) {
                return text.lock_line(first, name, words);
            }
        }
        lock(text, &self.script, first, client, set, mode)?;
        text.end_line()
    }

    /// Writes the line of a token that goes to a node.
    #[inline(always)]
    pub(crate) fn token_line(
        &self,
        text: &mut Text,
        set: u32,
        to: u8,
        epoch: u64,
    ) -> Result<(), AllocError>
        ensures { OnOk result (text.new ≡ text.old ++ line_text self.now (EventLine (Token set to epoch))) }
    {
        if epoch < 10_000 {
            if let Some(name) = self.word_of_set(set) {
                return text.token_line(name, to, epoch);
            }
        }
        words_of_event(text, &self.script, Event::Token { set, to, epoch })?;
        text.end_line()
    }

    // The client's word, if it is kept.
    #[inline(always)]
    fn word_of_client(&self, client: u16) -> Option<&Padded>
        ensures { IfSome result (λ word. word.now ≡ after_space (client_name self.now client)) }
    {
        let place = usize::from(client);
        if place >= self.clients.len() {
            return None;
        }
        let own = &self.clients[place];
        match &own.word {
            Some(word) if own.client == client => Some(word),
            _ => None,
        }
    }

    // The set's word, if it is kept.
    #[inline(always)]
    fn word_of_set(&self, set: u32) -> Option<&Padded>
        ensures { IfSome result (λ word. word.now ≡ after_space (set_name self.now set)) }
    {
        let place = set as usize;
        if place >= self.sets.len() {
            return None;
        }
        let own = &self.sets[place];
        match &own.word {
            Some(word) if own.set == set => Some(word),
            _ => None,
        }
    }

    // The words of the set and the mode, if they are kept.
    #[inline(always)]
    fn words_of_lock(&self, set: u32, mode: Mode) -> Option<&Padded>
        ensures { IfSome result (λ words. words.now ≡ after_space (set_name self.now set) ++ after_space (word_of mode)) }
    {
        let place = set as usize * MODES.len() + place(mode);
        if place >= self.locks.len() {
            return None;
        }
        let own = &self.locks[place];
        match &own.words {
            Some(words) if own.set == set && own.mode == mode => Some(words),
            _ => None,
        }
    }
}

// The words of all clients, in order.
fn client_words(alloc: Global, script: &Script) -> Result<Vec<ClientWord>, AllocError>
    ensures { IfOk result (λ words. AreClientWords script.now words.items) }
{
    let mut clients = Vec::new(alloc);
    let mut name = Text::new(alloc);
    for client in 0..script.clients() {
        name.clear();
        name.word(client_name(script, client))?;
        let word = Padded::new(name.bytes());
        clients.push(ClientWord { client, word })?;
    }
    Ok(clients)
}

// The words of all sets, in order.
fn set_words(alloc: Global, script: &Script) -> Result<Vec<SetWord>, AllocError>
    ensures { IfOk result (λ words. AreSetWords script.now words.items) }
{
    let mut sets = Vec::new(alloc);
    let mut name = Text::new(alloc);
    for set in 0..script.sets() {
        name.clear();
        name.word(set_name(script, set))?;
        let word = Padded::new(name.bytes());
        sets.push(SetWord { set, word })?;
    }
    Ok(sets)
}

// The words of all sets with each mode, in order.
fn lock_words(alloc: Global, script: &Script) -> Result<Vec<LockWords>, AllocError>
    ensures { IfOk result (λ locks. AreLockWords script.now locks.items) }
{
    let mut locks = Vec::new(alloc);
    for set in 0..script.sets() {
        push_set(alloc, &mut locks, script, set)?;
    }
    Ok(locks)
}

// Adds the words of the set with each mode.
fn push_set(
    alloc: Global,
    locks: &mut Vec<LockWords>,
    script: &Script,
    set: u32,
) -> Result<(), AllocError>
    requires { AreLockWords script.now locks.old.items }
    ensures { OnOk result (AreLockWords script.now locks.new.items) }
{
    let mut both = Text::new(alloc);
    for mode in &MODES {
        push_mode(&mut both, locks, script, set, *mode)?;
    }
    Ok(())
}

// Adds the words of the set with the mode, which it writes into the text.
fn push_mode(
    both: &mut Text,
    locks: &mut Vec<LockWords>,
    script: &Script,
    set: u32,
    mode: Mode,
) -> Result<(), AllocError>
    requires { AreLockWords script.now locks.old.items }
    ensures { OnOk result (AreLockWords script.now locks.new.items) }
{
    both.clear();
    both.word(set_name(script, set))?;
    both.word(mode.word().as_bytes())?;
    let words = Padded::new(both.bytes());
    locks.push(LockWords { set, mode, words })?;
    Ok(())
}
