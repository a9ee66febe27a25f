// The stations and sessions of a script, until they are taken, and after they are given back.
ghost use Rattle.std.specs.Prelude.{◌≡◌, ◌≢◌, ◌<◌, ◌≤◌, ◌-◌, ◌^◌, [], Ok, Err, Some, length, map, true, IfOk, IfErr, IfSome, IfNone, OnOk};
ghost use Rattle.lt_spec.specs.declared.moves.TheConstants.{MAX_MOVES_OF_SERVICE};
ghost use Rattle.lt_spec.specs.declared.limits.TheConstants.{MAX_COMMANDS, MAX_SETS};
ghost use Rattle.lt_script.specs.Reading.{read_of};
ghost use Rattle.lt_live.specs.Stations.{IsOpen, most_share};
ghost use Rattle.lt_live.specs.Live.{LiveScript};
ghost use Rattle.lt_live.specs.declared.finishing.FinishError.TheVariants as errors;
ghost use Rattle.lt_live_c.specs.Journals.{IsJournalOfService, SomeForgot, HaveTooMany, TellsOf};
ghost use Rattle.lt_live_c.specs.NewSets.{words_of_set, with_next_sets};
ghost use Rattle.lt_live_c.specs.KeySets.{key_sets};
ghost use Rattle.lt_live_c.specs.Opening.{IsOpenedFrom, OpenRefused, IsOpenedWith, OpenSetsRefused, IsOpenedOf, fits_for_c, TextRefused, SetsRefused};
ghost use Rattle.lt_live_c.specs.Serving.{has_all};
ghost use Rattle.lt_live_c.specs.Taking.{TakesFirstStation, TakesFirstSession};

use crate::code::{BAD_ARGUMENT, BAD_SCRIPT, BAD_SET, NO_MEMORY, TOO_MANY};
use crate::journal::Journal;
use crate::key_sets::add_key_sets;
use crate::limits::MAX_BYTES;
use crate::new_sets::{NewSet, add_sets};
use lt_live::{FinishError, Session, Station, finish, law_live_lasts, most_share, open};
use lt_merge::Run;
use lt_script::{MAX_COMMANDS, MAX_SETS, MAX_SETS_OF_SERVICE, ReadError, Script};
use lt_spec::MAX_MOVES_OF_SERVICE;
use std::alloc::{AllocError, Global};

pub struct Service {
    pub stations: Vec<Station>,
    pub sessions: Vec<Session>,
}

// Written out, so that all places which let a service go call this.
impl Drop for Service {
    fn drop(self) {
        let Service { stations, sessions } = self;
        drop(stations);
        drop(sessions);
    }
}

impl Service {
    /// The stations and sessions of the script, whose commands are left out.
    #[tactic(auto, using(crate::proofs::Unopened::unread, crate::proofs::Unopened::fits_all))]
    pub fn open(alloc: Global, text: &[u8], limit: u64, places: u32) -> Result<Service, u32>
        ensures opened { IfOk result (λ s. IsOpenedFrom text.now limit places s) }
        ensures whole { IfOk result (λ s. LiveScript s.stations.items s.sessions.items) }
        ensures refused { IfErr result (λ code. OpenRefused code text.now limit places) }
        ensures fits { OnOk result (fits_for_c text.now limit places ≡ true) }
    {
        if !fits(text, limit, places) {
            return Err(BAD_ARGUMENT);
        }
        let script = script_of(alloc, text)?;
        Service::start(alloc, &script, limit, places)
    }

    /// The same of the script with further sets.
    #[tactic(auto, using(crate::proofs::Unopened::unread, crate::proofs::Unopened::without_sets, crate::proofs::Unopened::no_sets, crate::proofs::Unopened::fits_all))]
    pub fn open_sets(
        alloc: Global,
        text: &[u8],
        sets: &[NewSet<'_>],
        limit: u64,
        places: u32,
    ) -> Result<Service, u32>
        ensures opened { IfOk result (λ s. IsOpenedWith text.now (map words_of_set sets.now) limit places s) }
        ensures whole { IfOk result (λ s. LiveScript s.stations.items s.sessions.items) }
        ensures refused { IfErr result (λ code.
            OpenSetsRefused code text.now (map words_of_set sets.now) limit places) }
        ensures fits { OnOk result (fits_for_c text.now limit places ≡ true) }
    {
        if !fits(text, limit, places) {
            return Err(BAD_ARGUMENT);
        }
        let script = script_of(alloc, text)?;
        let whole = with_sets(script, sets)?;
        Service::start(alloc, &whole, limit, places)
    }

    /// The same of the script with so many families of sets for keys.
    #[tactic(auto, using(crate::proofs::Unopened::unread, crate::proofs::Unopened::without_sets, crate::proofs::Unopened::no_sets, crate::proofs::Unopened::fits_all))]
    pub fn open_keys(
        alloc: Global,
        text: &[u8],
        families: u32,
        members: u32,
        limit: u64,
        places: u32,
    ) -> Result<Service, u32>
        ensures opened { IfOk result (λ s. IsOpenedWith text.now (key_sets families members) limit places s) }
        ensures whole { IfOk result (λ s. LiveScript s.stations.items s.sessions.items) }
        ensures refused { IfErr result (λ code.
            OpenSetsRefused code text.now (key_sets families members) limit places) }
        ensures fits { OnOk result (fits_for_c text.now limit places ≡ true) }
    {
        if !fits(text, limit, places) {
            return Err(BAD_ARGUMENT);
        }
        let script = script_of(alloc, text)?;
        let whole = with_key_sets(script, families, members)?;
        Service::start(alloc, &whole, limit, places)
    }

    // The stations and sessions of the script, without its commands.
    fn start(alloc: Global, script: &Script, limit: u64, places: u32) -> Result<Service, u32>
        requires limit { (0 < limit) × (limit ≤ MAX_MOVES_OF_SERVICE) }
        requires places { (0 < places) × (places ≤ MAX_COMMANDS) }
        ensures opened { IfOk result (λ s. IsOpenedOf script.now limit places s) }
        ensures whole { IfOk result (λ s. LiveScript s.stations.items s.sessions.items) }
        ensures refused { IfErr result (λ code. code ≡ NO_MEMORY) }
    {
        let Ok(script) = script.without_commands(alloc) else {
            return Err(NO_MEMORY);
        };
        match Service::of(alloc, &script, limit, places) {
            Ok(service) => Ok(service),
            Err(_) => Err(NO_MEMORY),
        }
    }

    fn of(alloc: Global, script: &Script, limit: u64, places: u32) -> Result<Service, AllocError>
        requires commands { script.now.commands ≡ [] }
        requires limit { (0 < limit) × (limit ≤ MAX_MOVES_OF_SERVICE) }
        requires places { (0 < places) × (places ≤ MAX_COMMANDS) }
        ensures opened { IfOk result (λ s. IsOpen script.now limit places (most_share script.now)
            s.stations.items s.sessions.items) }
        ensures whole { IfOk result (λ s. LiveScript s.stations.items s.sessions.items) }
    {
        law_live_lasts();
        let (stations, sessions) = open(alloc, script, limit, places, most_share(script))?;
        Ok(Service { stations, sessions })
    }

    /// The journal of the run that the stations made. After an error all is dropped.
    pub fn finish(self, alloc: Global) -> Result<Journal, FinishError>
        requires { LiveScript self.stations.items self.sessions.items }
        ensures journal { IfOk result (λ journal. IsJournalOfService self journal) }
        ensures forgotten { IfErr result (λ error. error ≡ errors.Forgotten → SomeForgot self) }
        ensures forgot { SomeForgot self → result ≡ Err errors.Forgotten }
        ensures many { IfErr result (λ error. error ≡ errors.TooMany → HaveTooMany self) }
    {
        let Service { stations, sessions } = self;
        let (script, run) = finish(alloc, stations, sessions)?;
        journal_of(alloc, &script, &run)
    }

    /// Whether all stations and sessions that it gave out are back.
    pub fn has_all(&self) -> bool
        ensures { result ≡ has_all self.now }
    {
        let Some(first) = self.stations.first() else {
            return false;
        };
        let script = first.script();
        self.stations.len() == usize::from(script.nodes())
            && self.sessions.len() == usize::from(script.clients())
    }

    pub fn next_station(&mut self) -> Option<Station>
        ensures some { IfSome result (λ station. TakesFirstStation station self.old self.new) }
        ensures none { IfNone result ((self.new ≡ self.old) × (self.old.stations.items ≡ [])) }
    {
        if self.stations.is_empty() {
            None
        } else {
            Some(self.stations.remove(0))
        }
    }

    pub fn next_session(&mut self) -> Option<Session>
        ensures some { IfSome result (λ session. TakesFirstSession session self.old self.new) }
        ensures none { IfNone result ((self.new ≡ self.old) × (self.old.sessions.items ≡ [])) }
    {
        if self.sessions.is_empty() {
            None
        } else {
            Some(self.sessions.remove(0))
        }
    }
}

// The script that the text denotes.
pub fn script_of(alloc: Global, text: &[u8]) -> Result<Script, u32>
    requires { length text.now < 2 ^ 32 - 1 }
    ensures read { IfOk result (λ script. read_of text.now ≡ Ok script) }
    ensures refused { IfErr result (λ code. TextRefused code text.now) }
{
    match lt_script::read(alloc, text) {
        Ok(script) => Ok(script),
        Err(ReadError::Memory) => Err(NO_MEMORY),
        Err(ReadError::Fault(_)) => Err(BAD_SCRIPT),
    }
}

// The script with these sets behind its own.
fn with_sets(mut script: Script, sets: &[NewSet<'_>]) -> Result<Script, u32>
    ensures sets { IfOk result (λ made. with_next_sets script (map words_of_set sets.now) ≡ Some made) }
    ensures refused { IfErr result (λ code. SetsRefused code (map words_of_set sets.now) script) }
{
    let room = MAX_SETS_OF_SERVICE - script.sets();
    if sets.len() > room as usize {
        return Err(TOO_MANY);
    }
    let Ok(()) = script.reserve_sets(sets.len() as u32) else {
        return Err(NO_MEMORY);
    };
    match add_sets(&mut script, sets) {
        Ok(true) => Ok(script),
        Ok(false) => Err(BAD_SET),
        Err(_) => Err(NO_MEMORY),
    }
}

// The script with so many families of sets for keys behind its own.
fn with_key_sets(mut script: Script, families: u32, members: u32) -> Result<Script, u32>
    ensures sets { IfOk result (λ made. with_next_sets script (key_sets families members) ≡ Some made) }
    ensures refused { IfErr result (λ code. SetsRefused code (key_sets families members) script) }
{
    let room = MAX_SETS_OF_SERVICE - script.sets();
    let count = u64::from(members) * u64::from(families);
    if count > u64::from(room) {
        return Err(TOO_MANY);
    }
    let Ok(()) = script.reserve_sets(count as u32) else {
        return Err(NO_MEMORY);
    };
    match add_key_sets(&mut script, members, count as u32) {
        Ok(true) => Ok(script),
        Ok(false) => Err(BAD_SET),
        Err(_) => Err(NO_MEMORY),
    }
}

// The journal of the run, if the text of a script may have all the sets.
fn journal_of(alloc: Global, script: &Script, run: &Run) -> Result<Journal, FinishError>
    ensures journal { IfOk result (λ journal.
        (length script.now.sets ≤ MAX_SETS) × TellsOf script.now run.now.entries journal) }
    ensures many { IfErr result (λ error.
        (error ≢ errors.Forgotten) × (error ≡ errors.TooMany → MAX_SETS < length script.now.sets)) }
    ensures told { MAX_SETS < length script.now.sets → result ≡ Err errors.TooMany }
{
    if script.sets() > MAX_SETS {
        return Err(FinishError::TooMany);
    }
    let journal = Journal::of(alloc, script, run)?;
    Ok(journal)
}

// Whether the numbers are in range, and the text isn't too long.
pub fn fits(text: &[u8], limit: u64, places: u32) -> bool
    ensures { result ≡ fits_for_c text.now limit places }
{
    text.len() <= MAX_BYTES
        && (0 < limit && limit <= MAX_MOVES_OF_SERVICE)
        && (0 < places && places <= MAX_COMMANDS)
}
