//! What a way does to one fact, such as 'this property has its value'.

ghost use Rattle.std.specs.Prelude.{◌≡◌};
ghost use Rattle.evo_flow.specs.Act as spec;
ghost use Rattle.evo_flow.specs.Act.{act};
ghost use Rattle.evo_flow.specs.Way as way;

use crate::keys::is_same;
use evo_base::{FaultKind, Key, Place};
use evo_tree::SourceFault;

/// What an initialiser has to bring about before `self` is used and before it ends.
#[derive(Clone, Copy)]
pub enum Fact {
    /// Nothing: what is asked is what can be reached.
    Reached,
    /// A stored property has its value. A `let` gets one only once.
    Property(bool),
    /// `self` of an enum has its value.
    Whole,
    /// `self.init` has returned.
    Delegated,
    /// `super.init` has returned, once.
    Super,
}

/// What a step has to do with a fact.
#[derive(Clone, Copy)]
pub enum Effect {
    Passes,
    /// The step brings it about.
    Sets,
    /// The step is a fault before it.
    Needs(SourceFault),
    /// The step brings it about, and is a fault after it.
    Once(SourceFault),
}

/// Whether the fact can be undone here, and whether it can be done. Neither: no path comes here.
#[derive(Clone, Copy)]
pub struct Possible {
    pub undone: bool,
    pub done: bool,
}

/// How the paths of a way leave it, and a fault on one of them.
#[derive(Clone, Copy)]
pub struct Out {
    pub next: Possible,
    pub breaks: Possible,
    pub continues: Possible,
    pub fault: Option<SourceFault>,
}

/// A way that is entered while the fact is undone, and while it is done.
#[derive(Clone, Copy)]
pub struct Flow {
    pub undone: Out,
    pub done: Out,
}

fn initial(fact: Fact, place: Place) -> Effect
    ensures { result ≡ spec.initial fact place }
{
    match fact {
        Fact::Reached => Effect::Passes,
        _ => Effect::Needs(SourceFault {
            kind: FaultKind::NotInitialised,
            place,
        }),
    }
}

fn twice(place: Place) -> Effect
    ensures { result ≡ spec.twice place }
{
    Effect::Once(SourceFault {
        kind: FaultKind::AssignedTwice,
        place,
    })
}

/// `self` is used.
pub(crate) fn on_use(fact: Fact, property: &Key, place: Place) -> Effect
    ensures { result ≡ act fact property.now (way.Step.uses place) }
{
    initial(fact, place)
}

/// The body is left.
pub(crate) fn on_leaving(fact: Fact, property: &Key, place: Place) -> Effect
    ensures { result ≡ act fact property.now (way.Step.leaves place) }
{
    initial(fact, place)
}

/// A stored property gets its value.
pub(crate) fn on_store(fact: Fact, property: &Key, place: Place, key: &Key) -> Effect
    ensures { result ≡ act fact property.now (way.Step.stores place key.now) }
{
    match fact {
        Fact::Property(once) => {
            if is_same(property, key) {
                if once { twice(place) } else { Effect::Sets }
            } else {
                Effect::Passes
            }
        }
        _ => Effect::Passes,
    }
}

/// `self` gets a value.
pub(crate) fn on_assign(fact: Fact, property: &Key, place: Place) -> Effect
    ensures { result ≡ act fact property.now (way.Step.assigns place) }
{
    match fact {
        Fact::Whole => Effect::Sets,
        _ => Effect::Passes,
    }
}

/// `self.init` returns.
pub(crate) fn on_delegate(fact: Fact, property: &Key, place: Place) -> Effect
    ensures { result ≡ act fact property.now (way.Step.delegates place) }
{
    match fact {
        Fact::Reached => Effect::Passes,
        _ => Effect::Sets,
    }
}

/// `super.init` returns.
pub(crate) fn on_super(fact: Fact, property: &Key, place: Place) -> Effect
    ensures { result ≡ act fact property.now (way.Step.supers place) }
{
    match fact {
        Fact::Super => twice(place),
        Fact::Property(_) => initial(fact, place),
        _ => Effect::Passes,
    }
}
