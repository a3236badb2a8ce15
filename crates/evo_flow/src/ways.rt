//! The flows of the forms of a way.

ghost use Rattle.std.specs.Prelude.{◌≡◌, ◌||◌, true, false, Some, None};
ghost use Rattle.evo_flow.specs.Path.{after as after_of};
ghost use Rattle.evo_flow.specs.Way as w;
ghost use Rattle.evo_flow.specs.Flows as spec;

use crate::flow::{Effect, Flow, Out, Possible};
use evo_tree::SourceFault;

const NOWHERE: Possible = Possible {
    undone: false,
    done: false,
};

fn first<A: Copy>(a: Option<A>, b: Option<A>) -> Option<A>
    ensures { result ≡ spec.first a b }
{
    match a {
        Some(x) => Some(x),
        None => b,
    }
}

fn or(a: bool, b: bool) -> bool
    ensures { result ≡ (a || b) }
{
    if a { true } else { b }
}

fn union(a: Possible, b: Possible) -> Possible
    ensures { result ≡ spec.union a b }
{
    Possible {
        undone: or(a.undone, b.undone),
        done: or(a.done, b.done),
    }
}

fn only(done: bool) -> Possible
    ensures { result ≡ spec.only done }
{
    if done {
        Possible {
            undone: false,
            done: true,
        }
    } else {
        Possible {
            undone: true,
            done: false,
        }
    }
}

fn no_out() -> Out
    ensures { result ≡ spec.no_out }
{
    Out {
        next: NOWHERE,
        breaks: NOWHERE,
        continues: NOWHERE,
        fault: None,
    }
}

#[tactic(auto, unfolding(crate::specs::Flows::join))]
fn join(a: Out, b: Out) -> Out
    ensures { result ≡ spec.join a b }
{
    Out {
        next: union(a.next, b.next),
        breaks: union(a.breaks, b.breaks),
        continues: union(a.continues, b.continues),
        fault: first(a.fault, b.fault),
    }
}

fn when(possible: bool, out: Out) -> Out
    ensures { result ≡ spec.when possible out }
{
    if possible { out } else { no_out() }
}

fn bad(effect: Effect, done: bool) -> Option<SourceFault>
    ensures { result ≡ spec.bad effect done }
{
    match effect {
        Effect::Needs(fault) => { if done { None } else { Some(fault) } }
        Effect::Once(fault) => { if done { Some(fault) } else { None } }
        Effect::Passes => None,
        Effect::Sets => None,
    }
}

fn after(effect: Effect, done: bool) -> bool
    ensures { result ≡ after_of effect done }
{
    match effect {
        Effect::Passes => done,
        Effect::Sets => true,
        Effect::Needs(_) => done,
        Effect::Once(_) => true,
    }
}

fn step_out(effect: Effect, done: bool) -> Out
    ensures { result ≡ spec.step_out effect done }
{
    Out {
        next: only(after(effect, done)),
        breaks: NOWHERE,
        continues: NOWHERE,
        fault: bad(effect, done),
    }
}

#[tactic(auto, unfolding(crate::specs::Flows::via))]
fn via(possible: Possible, flow: &Flow) -> Out
    ensures { result ≡ spec.via possible flow.now }
{
    join(
        when(possible.undone, flow.undone),
        when(possible.done, flow.done),
    )
}

#[tactic(auto, unfolding(crate::specs::Flows::then_out))]
fn then_out(a: Out, flow: &Flow) -> Out
    ensures { result ≡ spec.then_out a flow.now }
{
    let off = Out {
        next: NOWHERE,
        breaks: a.breaks,
        continues: a.continues,
        fault: a.fault,
    };
    join(off, via(a.next, flow))
}

#[tactic(auto, unfolding(crate::specs::Flows::loop_out))]
fn loop_out(done: bool, out: Out, flow: &Flow) -> Out
    ensures { result ≡ spec.loop_out done out flow.now }
{
    let heads = union(only(done), union(out.next, out.continues));
    let turns = via(heads, flow);
    Out {
        next: turns.breaks,
        breaks: NOWHERE,
        continues: NOWHERE,
        fault: turns.fault,
    }
}

#[tactic(auto, unfolding(crate::specs::Flows::left_out))]
fn left_out(out: Out) -> Out
    ensures { result ≡ spec.left_out out }
{
    Out {
        next: union(out.next, out.breaks),
        breaks: NOWHERE,
        continues: out.continues,
        fault: out.fault,
    }
}

fn next_out(done: bool) -> Out
    ensures { result ≡ spec.leaving_out w.next done }
{
    Out {
        next: only(done),
        breaks: NOWHERE,
        continues: NOWHERE,
        fault: None,
    }
}

fn breaks_out(done: bool) -> Out
    ensures { result ≡ spec.leaving_out w.breaks done }
{
    Out {
        next: NOWHERE,
        breaks: only(done),
        continues: NOWHERE,
        fault: None,
    }
}

fn continues_out(done: bool) -> Out
    ensures { result ≡ spec.leaving_out w.continues done }
{
    Out {
        next: NOWHERE,
        breaks: NOWHERE,
        continues: only(done),
        fault: None,
    }
}

pub(crate) fn skip() -> Flow
    ensures { result ≡ spec.skip_flow }
{
    Flow {
        undone: next_out(false),
        done: next_out(true),
    }
}

#[tactic(auto, unfolding(crate::specs::Flows::step_flow))]
pub(crate) fn step(effect: Effect) -> Flow
    ensures { result ≡ spec.step_flow effect }
{
    Flow {
        undone: step_out(effect, false),
        done: step_out(effect, true),
    }
}

#[tactic(auto, unfolding(crate::specs::Flows::leaving_flow))]
pub(crate) fn stopping() -> Flow
    ensures { result ≡ spec.leaving_flow w.stopped }
{
    Flow {
        undone: no_out(),
        done: no_out(),
    }
}

#[tactic(auto, unfolding(crate::specs::Flows::leaving_flow))]
pub(crate) fn breaking() -> Flow
    ensures { result ≡ spec.leaving_flow w.breaks }
{
    Flow {
        undone: breaks_out(false),
        done: breaks_out(true),
    }
}

#[tactic(auto, unfolding(crate::specs::Flows::leaving_flow))]
pub(crate) fn continuing() -> Flow
    ensures { result ≡ spec.leaving_flow w.continues }
{
    Flow {
        undone: continues_out(false),
        done: continues_out(true),
    }
}

#[tactic(auto, unfolding(crate::specs::Flows::then_flow))]
pub(crate) fn then(a: &Flow, b: &Flow) -> Flow
    ensures { result ≡ spec.then_flow a.now b.now }
{
    Flow {
        undone: then_out(a.undone, b),
        done: then_out(a.done, b),
    }
}

#[tactic(auto, unfolding(crate::specs::Flows::either_flow))]
pub(crate) fn either(a: &Flow, b: &Flow) -> Flow
    ensures { result ≡ spec.either_flow a.now b.now }
{
    Flow {
        undone: join(a.undone, b.undone),
        done: join(a.done, b.done),
    }
}

#[tactic(auto, unfolding(crate::specs::Flows::loop_flow))]
pub(crate) fn looping(a: &Flow) -> Flow
    ensures { result ≡ spec.loop_flow a.now }
{
    Flow {
        undone: loop_out(false, a.undone, a),
        done: loop_out(true, a.done, a),
    }
}

#[tactic(auto, unfolding(crate::specs::Flows::left_flow))]
pub(crate) fn leaving_switch(a: &Flow) -> Flow
    ensures { result ≡ spec.left_flow a.now }
{
    Flow {
        undone: left_out(a.undone),
        done: left_out(a.done),
    }
}
