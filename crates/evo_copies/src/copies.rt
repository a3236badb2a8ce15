ghost use Rattle.std.specs.Prelude.{◌≡◌, IfOk, OnOk};
ghost use Rattle.evo_base.specs.Names.{AreDistinct};
ghost use Rattle.evo_first_form.specs.Calls.{calls_of, calls_of_term, calls_of_terms};
ghost use Rattle.evo_copies.specs.Reach.{reached, ReadsCopy, Spreads, AreCopies, AreInlinable};

use crate::view::View;
use evo_base::NameTable;
use evo_first_form::{Print, Term};
use std::alloc::{AllocError, Global};

// Adds what a term calls.
fn reach_term(
    alloc: Global,
    view: &View<'_>,
    term: &Term,
    copies: &mut NameTable,
) -> Result<(), AllocError>
    ensures { OnOk result (copies.new ≡ reached view.now copies.old (calls_of_term term.now)) }
{
    let Term::Call(name) = term else {
        return Ok(());
    };
    if view.copied(name.as_slice()).is_some() {
        let _new = copies.insert(alloc, name.as_slice())?;
    }
    Ok(())
}

// Adds what terms call.
fn reach_terms(
    alloc: Global,
    view: &View<'_>,
    terms: &[Term],
    copies: &mut NameTable,
) -> Result<(), AllocError>
    ensures { OnOk result (copies.new ≡ reached view.now copies.old (calls_of_terms terms.now)) }
{
    for term in terms {
        reach_term(alloc, view, term, copies)?;
    }
    Ok(())
}

// Adds what the client's own code calls.
fn reach_prints(
    alloc: Global,
    view: &View<'_>,
    prints: &[Print],
    copies: &mut NameTable,
) -> Result<(), AllocError>
    ensures { OnOk result (copies.new ≡ reached view.now copies.old (calls_of prints.now)) }
{
    for print in prints {
        reach_terms(alloc, view, print.terms.as_slice(), copies)?;
    }
    Ok(())
}

// Adds what the copy at a place calls. The answer says whether there is one.
fn read_copy(
    alloc: Global,
    view: &View<'_>,
    place: usize,
    copies: &mut NameTable,
) -> Result<bool, AllocError>
    ensures { IfOk result (ReadsCopy view.now copies.old place copies.new) }
{
    let Some(name) = copies.name_at(place) else {
        return Ok(false);
    };
    let Some(copied) = view.copied(name) else {
        return Ok(true);
    };
    reach_term(alloc, view, copied.body, copies)?;
    Ok(true)
}

// Reads the copies one after another, and adds what they call.
fn spread(alloc: Global, view: &View<'_>, copies: &mut NameTable) -> Result<(), AllocError>
    requires distinct { AreDistinct copies.old }
    requires inlinable { AreInlinable view.now copies.old }
    ensures { OnOk result (Spreads view.now 0 copies.old copies.new) }
{
    for place in 0..view.len() {
        if !read_copy(alloc, view, place, copies)? {
            return Ok(());
        }
    }
    Ok(())
}

/// The functions that the code of a client, or a copy, calls and that clients copy, each once, in the
/// order in which they are first reached from the client's text, breadth first. Only memory can fail.
pub fn copies_needed(
    alloc: Global,
    view: &View<'_>,
    prints: &[Print],
) -> Result<NameTable, AllocError>
    ensures { IfOk result (AreCopies view.now prints.now) }
{
    let mut copies = NameTable::new(alloc);
    reach_prints(alloc, view, prints, &mut copies)?;
    spread(alloc, view, &mut copies)?;
    Ok(copies)
}
