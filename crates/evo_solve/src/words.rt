//! The table words of a signature.

ghost use Rattle.std.specs.Prelude.{◌≡◌, ◌≤◌, ◌++◌, ◌∷◌, [], IfOk, MatchOption, OnOk, drop, filter, length, take};
ghost use Rattle.evo_solve.specs.Words as words;

use crate::order::{compare_names, number};
use crate::path::Word;
use evo_base::{Key, Name};
use evo_resolved::{Copied, RRequirement, RType, Signature};
use std::alloc::{AllocError, Global};
use std::cmp::Ordering;

fn rank(ty: &RType) -> u32
    ensures { result ≡ words.rank ty.now }
{
    match ty {
        RType::NoValue => 0,
        RType::Named(_) => 1,
        RType::Param(_) => 2,
        RType::Assoc(_, _) => 2,
    }
}

fn names_in(ty: &RType) -> &[Name]
    ensures { result.now ≡ words.names_in ty.now }
{
    match ty {
        RType::Assoc(_, names) => names.as_slice(),
        RType::Named(key) => key.context.as_slice(),
        RType::Param(_) => &[],
        RType::NoValue => &[],
    }
}

fn base_of(ty: &RType) -> &[u8]
    ensures { result.now ≡ words.base_of ty.now }
{
    match ty {
        RType::Named(key) => key.base.as_slice(),
        RType::Assoc(_, _) => &[],
        RType::Param(_) => &[],
        RType::NoValue => &[],
    }
}

fn compare_subjects(t: &RType, u: &RType) -> Ordering
    ensures { result ≡ words.subject_order t.now u.now }
{
    match rank(t).cmp(&rank(u)) {
        Ordering::Equal => match number(t).cmp(&number(u)) {
            Ordering::Equal => match compare_names(names_in(t), names_in(u)) {
                Ordering::Equal => base_of(t).cmp(base_of(u)),
                unequal => unequal,
            },
            unequal => unequal,
        },
        unequal => unequal,
    }
}

fn compare_protocols(p: &Key, q: &Key) -> Ordering
    ensures { result ≡ words.protocol_order p.now q.now }
{
    match compare_names(p.context.as_slice(), q.context.as_slice()) {
        Ordering::Equal => p.base.as_slice().cmp(q.base.as_slice()),
        unequal => unequal,
    }
}

fn compare_words(v: &Word, w: &Word) -> Ordering
    ensures { result ≡ words.word_order v.now w.now }
{
    match compare_subjects(&v.subject, &w.subject) {
        Ordering::Equal => compare_protocols(&v.protocol, &w.protocol),
        unequal => unequal,
    }
}

// Where a word belongs among others; nothing where it is among them.
fn place_of(others: &[Word], word: &Word) -> Option<usize>
    ensures { MatchOption result (words.put word.now others.now ≡ others.now) (λ i. (i ≤ length others.now) × (words.put word.now others.now ≡ take i others.now ++ word.now ∷ drop i others.now)) }
{
    for i in 0..others.len() {
        match compare_words(word, &others[i]) {
            Ordering::Less => return Some(i),
            Ordering::Equal => return None,
            Ordering::Greater => {}
        }
    }
    Some(others.len())
}

fn put(others: &mut Vec<Word>, word: Word) -> Result<(), AllocError>
    ensures { OnOk result (others.new.items ≡ words.put word others.old.items) }
{
    match place_of(others, &word) {
        Some(i) => {
            others.insert(i, word)?;
            Ok(())
        }
        None => Ok(()),
    }
}

fn sorted(alloc: Global, requirements: &[RRequirement]) -> Result<Vec<Word>, AllocError>
    ensures { IfOk result (λ ws. ws.items ≡ words.put_all requirements.now []) }
{
    let mut words = Vec::new(alloc);
    for requirement in requirements {
        let RRequirement::Conforms(written, reference) = requirement else {
            continue;
        };
        let subject = written.ty.copy(alloc)?;
        let protocol = reference.key.copy(alloc)?;
        put(&mut words, Word { subject, protocol })?;
    }
    Ok(words)
}

fn differ(one: &Word, other: &Word) -> bool
    ensures { result ≡ words.differs one.now other.now }
{
    compare_words(one, other) != Ordering::Equal
}

// A word, and behind it those of others that differ from it.
fn led(alloc: Global, first: Word, others: Vec<Word>) -> Result<Vec<Word>, AllocError>
    ensures { IfOk result (λ ws. ws.items ≡ first ∷ filter (words.differs first) others.items) }
{
    let mut rest = Vec::new(alloc);
    for word in others {
        if differ(&first, &word) {
            rest.push(word)?;
        }
    }
    rest.insert(0, first)?;
    Ok(rest)
}

/// The table words: that of `Self` first where the signature stands in a protocol, then one for each other conformance
/// requirement, by parameter, associated names and protocol.
pub fn table_words(alloc: Global, signature: &Signature) -> Result<Vec<Word>, AllocError>
    ensures { IfOk result (λ ws. ws.items ≡ words.table_words signature.now) }
{
    let words = sorted(alloc, signature.requirements.as_slice())?;
    let Some(key) = &signature.protocol else {
        return Ok(words);
    };
    let protocol = key.copy(alloc)?;
    let subject = RType::Param(0);
    led(alloc, Word { subject, protocol }, words)
}
