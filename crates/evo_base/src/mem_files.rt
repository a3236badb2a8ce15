ghost use Rattle.std.specs.Prelude.{◌≡◌, ◌≢◌, ℕ, List, [], ◌∷◌, ◌++◌, IfOk, OnOk, OnErr, length, take, ◌≤◌, ◌+◌, ◌-◌, ◌<◌, ◌^◌, MatchBool, is_err, false};
ghost use Rattle.std.specs.Option.{IsSomeAnd};
ghost use Rattle.evo_base.specs.Causes.{GetCause, HasCause, get_failed};
ghost use Rattle.evo_base.specs.Content.{ReadsUpTo, Puts};
ghost use Rattle.evo_base.specs.MemFilesState.{add_entry, room_of, has_room, PutsTo};
ghost use Rattle.evo_base.specs.States.{HoldSame, StaySure};

use crate::entry::{Entry, place_of};
use crate::plan::FailurePlan;
use crate::{Failed, Files, GetFault, Name};
use std::alloc::{AllocError, Global};
use std::marker::Model;

/// Files in memory. A name has a file once it is prepared by `add`.
#[derive(Drop)]
pub struct MemFiles {
    entries: Vec<Entry>,
    plan: FailurePlan,
    faults: u64,
    failed: bool,
}

impl Model for MemFiles {
    ghost use Rattle.evo_base.specs.MemFilesState.{MemFilesState};

    ghost Value = { MemFilesState };

    ghost view = { λ f. record { entries = f.entries.items; plan = f.plan; faults = f.faults; failed = f.failed } };
}

impl MemFiles {
    ghost use Rattle.std.specs.Option.{option_map};
    ghost use Rattle.evo_base.specs.MemFilesState.{held_of};

    /// No name is prepared, and no call is to fail.
    pub fn new(alloc: Global) -> Result<MemFiles, AllocError>
        ensures { IfOk result (λ f. f ≡ record { entries = []; plan = record { calls = 0; listed = [] }; faults = 0; failed = false }) }
    {
        Ok(MemFiles {
            entries: Vec::new(alloc),
            plan: FailurePlan::new(alloc),
            faults: 0,
            failed: false,
        })
    }

    /// Prepares a name with its bytes and the room, in bytes, for each later `put`. A name that is prepared already gets these
    /// bytes and this room.
    pub fn add(&mut self, name: Name, bytes: Vec<u8>, room: u64) -> Result<(), AllocError>
        ensures ok { OnOk result (self.new ≡ record self.old { entries = add_entry (record { name = name; bytes = bytes.items; room = room }) self.old.entries }) }
        ensures err { OnErr result (self.new ≡ self.old) }
    {
        add_to(&mut self.entries, Entry::new(name, bytes, room)?)
    }

    /// Lists the number of a call that is to fail, counted from 1 over all calls of `get` and `put`. A listed `put` keeps the
    /// first half of its bytes.
    pub fn fail(&mut self, call: u64) -> Result<(), AllocError>
        ensures ok { OnOk result (self.new ≡ record self.old { plan = record self.old.plan { listed = self.old.plan.listed ++ call ∷ [] } }) }
        ensures err { OnErr result (self.new ≡ self.old) }
    {
        self.plan.fail(call)
    }

    /// The bytes that a name has, where it is prepared.
    pub fn bytes(&self, name: &Name) -> Option<&[u8]>
        ensures { option_map (λ r. r.now) result ≡ held_of self.now name.now }
    {
        let at = place_of(&self.entries, name.as_slice())?;
        Some(self.entries[at].bytes())
    }
}

fn add_to(entries: &mut Vec<Entry>, entry: Entry) -> Result<(), AllocError>
    ensures ok { OnOk result (entries.new.items ≡ add_entry entry entries.old.items) }
    ensures err { OnErr result (entries.new.items ≡ entries.old.items) }
{
    match place_of(entries, entry.name()) {
        Some(at) => entries[at] = entry,
        None => entries.push(entry)?,
    }
    Ok(())
}

// Puts bytes to a name, where it is there and has the room.
fn put_to(entries: &mut [Entry], name: &[u8], bytes: &[u8], kept: usize) -> bool
    requires { kept ≤ length bytes.now }
    ensures fits { result ≡ has_room name.now (length bytes.now) entries.old }
    ensures puts { MatchBool result ((IsSomeAnd (room_of name.now entries.old) (λ room. length bytes.now ≤ room)) × PutsTo entries.old entries.new name.now (take kept bytes.now)) ((IsSomeAnd (room_of name.now entries.old) (λ room. length bytes.now ≤ room) → ⊥) × (entries.new ≡ entries.old)) }
{
    match place_of(entries, name) {
        Some(at) if bytes.len() as u64 <= entries[at].room() => {
            let entry = &mut entries[at];
            entry.put(&bytes[..kept]);
            true
        }
        _ => false,
    }
}

// The front of a file, up to one byte more than the limit.
fn front(alloc: Global, bytes: &[u8], limit: u64) -> Result<Vec<u8>, AllocError>
    requires { limit < 2 ^ 64 - 1 }
    ensures { IfOk result (λ v. v.items ≡ take (limit + 1) bytes.now) }
{
    let most = limit as usize + 1;
    if bytes.len() <= most {
        Vec::from_slice(alloc, bytes)
    } else {
        Vec::from_slice(alloc, &bytes[..most])
    }
}

impl Files for MemFiles {
    ghost use Rattle.evo_base.specs.MemFilesState.{files_state, held_of, Gets, Takes, get_fails, after_get, put_fails, after_put};
    ghost use Rattle.evo_base.specs.Laws.{files_take_fewer};

    ghost state = { files_state };

    fn get(&mut self, alloc: Global, name: &Name, limit: u64) -> Result<Vec<u8>, GetFault>
        requires { limit < 2 ^ 64 - 1 }
        ensures bytes { IfOk result (λ v. ReadsUpTo (held_of self.old name.now) (limit + 1) v.items) }
        ensures same { HoldSame (files_state self.old) (files_state self.new) }
        ensures failed { self.new.failed ≡ get_failed result }
        ensures cause { GetCause self.old.faults self.new.faults (Gets self.old name.now) result }
        ensures sure { StaySure (files_state self.old) (files_state self.new) }

        // Which calls fail, and what is left of the files, also where memory is wanting.
        ensures after { self.new ≡ after_get self.old name.now }
        ensures fails { get_failed result ≡ get_fails self.old name.now }
    {
        let listed = self.plan.next();
        self.failed = false;
        let place = place_of(&self.entries, name.as_slice());
        match place {
            Some(at) if !listed => Ok(front(alloc, self.entries[at].bytes(), limit)?),
            _ => {
                self.faults = self.faults.saturating_add(1);
                self.failed = true;
                Err(GetFault::Failed)
            }
        }
    }

    fn put(&mut self, name: &Name, bytes: &[u8]) -> Result<(), Failed>
        ensures content { Puts (held_of self.old name.now) (held_of self.new name.now) bytes.now result }
        ensures others { (other : List ℕ) → other ≢ name.now → held_of self.new other ≡ held_of self.old other }
        ensures failed { self.new.failed ≡ is_err result }
        ensures cause { HasCause self.old.faults self.new.faults (Takes self.old name.now (length bytes.now)) result }
        ensures sure { StaySure (files_state self.old) (files_state self.new) }

        // Which calls fail, and what they keep.
        ensures after { self.new ≡ after_put self.old name.now bytes.now }
        ensures fails { is_err result ≡ put_fails self.old name.now (length bytes.now) }
    {
        let listed = self.plan.next();
        let kept = if listed { bytes.len() / 2 } else { bytes.len() };
        if put_to(&mut self.entries, name.as_slice(), bytes, kept) && !listed {
            self.failed = false;
            return Ok(());
        }
        self.faults = self.faults.saturating_add(1);
        self.failed = true;
        Err(Failed {})
    }

    ghost puts_fewer = { files_take_fewer };
}
