//! The load check.

ghost use Rattle.std.specs.Prelude.{◌≡◌, ◌&&◌, ℕ, List, true, slice_get};
ghost use Rattle.evo_code.specs.Groups.{enters, looks_into};
ghost use Rattle.evo_code.specs.declared.instr.Instr.{Instr};
ghost use Rattle.evo_code.specs.declared.object.Level.{Level};
ghost use Rattle.std.specs.List.{list_all};
ghost use Rattle.evo_code.specs.Loads.{passes, rank, is_timed, may_call, is_low, is_tick, jumps_well, level_in, level_of, instr_passes, code_passes, is_place, is_sized, begins_well, is_exported_well, function_passes, size_passes, level_passes, entry_passes, class_passes, requirement_passes, subtable_passes, protocol_passes, conformance_passes, sub_entry_passes};

use crate::checked::{Checked, are_arguments, check_all, has, has_optional, is_place, is_sized};
use crate::instr::Instr;
use crate::layout::{Layout, Operand, Symbol};
use crate::named::is_named;
use crate::object::{
    ClassRecord, CodeEntry, ConfRecord, Function, ImportKind, Level, Object, ProtocolRecord,
    Requirement, SizeRecord, SubEntry, SubRequirement,
};
use evo_base::List;

fn rank(level: Level) -> u8
    ensures { result ≡ rank level }
{
    match level {
        Level::Zero => 0,
        Level::One => 1,
        Level::Two => 2,
        Level::Three => 3,
        Level::Timed => 4,
    }
}

/// Whether a function of this level takes ticks.
pub fn is_timed(level: Level) -> bool
    ensures { result ≡ is_timed level }
{
    matches!(level, Level::Timed)
}

/// Whether a function of the first level may call one of the second: it is timed, or of a lower level.
pub fn may_call(level: Level, callee: Level) -> bool
    ensures { result ≡ may_call level callee }
{
    is_timed(callee) || rank(callee) < rank(level)
}

/// Whether a witness may be of this level.
pub fn is_low(level: Level) -> bool
    ensures { result ≡ is_low level }
{
    is_timed(level) || rank(level) <= 2
}

// Whether the code has a tick at this place.
fn has_tick(code: &[Instr], at: u64) -> bool
    ensures { result ≡ is_tick (slice_get code.now at) }
{
    match code.get(at as usize) {
        Some(Instr::Tick) => true,
        _ => false,
    }
}

/// Whether an instruction at this place may jump to the target: forwards, at most to the end of the code, or to a tick.
pub fn jumps_well(code: &[Instr], at: u64, target: u64) -> bool
    ensures { result ≡ jumps_well code.now at target }
{
    (at < target && target <= code.len() as u64) || has_tick(code, target)
}

fn level_of(object: &Object, symbol: &Symbol) -> Level
    ensures { result ≡ level_of object.now symbol.now }
{
    for function in object.functions.as_slice() {
        if function.symbol.as_slice() == symbol.as_slice() {
            return function.level;
        }
    }
    Level::Zero
}

fn two_places(to: &Operand, from: &Operand, object: &Object) -> bool
    ensures { result ≡ (is_place object.now to.now && is_place object.now from.now) }
{
    is_place(to, object) && is_place(from, object)
}

fn three_places(to: &Operand, left: &Operand, right: &Operand, object: &Object) -> bool
    ensures { result ≡ (is_place object.now to.now && (is_place object.now left.now && is_place object.now right.now)) }
{
    is_place(to, object) && is_place(left, object) && is_place(right, object)
}

fn places_of_size(to: &Operand, from: &Operand, size: &Layout, object: &Object) -> bool
    ensures { result ≡ (is_place object.now to.now && (is_place object.now from.now && is_sized object.now size.now)) }
{
    is_place(to, object) && is_place(from, object) && is_sized(size, object)
}

// Checks an instruction that enters a function.
fn check_enter(instr: &Instr, level: Level, object: &Object) -> bool
    requires { enters instr.now ≡ true }
    ensures { (code : List Instr) (at : ℕ) → result ≡ instr_passes object.now level code at instr.now }
{
    match instr {
        Instr::Call {
            function,
            args,
            to,
            size,
        } => {
            has(object, ImportKind::Function, function)
                && may_call(level, level_of(object, function))
                && are_arguments(args, to, size, object)
        }
        Instr::Dispatch { args, to, size, .. } => are_arguments(args, to, size, object),
        Instr::Super {
            class,
            args,
            to,
            size,
            ..
        } => has(object, ImportKind::Class, class) && are_arguments(args, to, size, object),
        Instr::Witness {
            table,
            args,
            to,
            size,
            ..
        } => {
            may_call(level, Level::Two)
                && is_place(table, object)
                && are_arguments(args, to, size, object)
        }
        _ => unreachable!(),
    }
}

fn places_and_sizes(from: &Operand, offset: &Layout, size: &Layout, object: &Object) -> bool
    ensures { result ≡ (is_place object.now from.now && (is_sized object.now offset.now && is_sized object.now size.now)) }
{
    is_place(from, object) && is_sized(offset, object) && is_sized(size, object)
}

// Checks an instruction that takes from an object, a box or a table.
fn check_object(instr: &Instr, object: &Object) -> bool
    requires { looks_into instr.now ≡ true }
    ensures { (level : Level) (code : List Instr) (at : ℕ) → result ≡ instr_passes object.now level code at instr.now }
{
    match instr {
        Instr::New { to, class } => {
            is_place(to, object) && has(object, ImportKind::Class, class)
        }
        Instr::Load {
            to,
            object: from,
            offset,
            size,
        } => is_place(to, object) && places_and_sizes(from, offset, size, object),
        Instr::Store {
            object: to,
            offset,
            from,
            size,
        } => {
            is_place(to, object)
                && is_sized(offset, object)
                && is_place(from, object)
                && is_sized(size, object)
        }
        Instr::Box { to, from, size } => places_of_size(to, from, size, object),
        Instr::Unbox { to, from, size } => places_of_size(to, from, size, object),
        Instr::Table { to, conformance } => {
            is_place(to, object) && has(object, ImportKind::Conformance, conformance)
        }
        Instr::Sub { to, table, .. } => two_places(to, table, object),
        _ => unreachable!(),
    }
}

fn check_instr(instr: &Instr, level: Level, code: &[Instr], at: u64, object: &Object) -> bool
    ensures { result ≡ instr_passes object.now level code.now at instr.now }
{
    match instr {
        Instr::Tick => is_timed(level),
        Instr::Int { to, .. } => is_place(to, object),
        Instr::Bool { to, .. } => is_place(to, object),
        Instr::Text { to, .. } => is_place(to, object),
        Instr::Move { to, from, size } => places_of_size(to, from, size, object),
        Instr::Jump { target } => jumps_well(code, at, *target),
        Instr::Unless { test, target } => is_place(test, object) && jumps_well(code, at, *target),
        Instr::Math {
            to,
            left,
            right,
            ..
        } => three_places(to, left, right, object),
        Instr::Neg { to, from } => two_places(to, from, object),
        Instr::Order {
            to,
            left,
            right,
            ..
        } => three_places(to, left, right, object),
        Instr::Equal { to, left, right } => three_places(to, left, right, object),
        Instr::Same { to, left, right } => three_places(to, left, right, object),
        Instr::Not { to, from } => two_places(to, from, object),
        Instr::Join { to, left, right } => three_places(to, left, right, object),
        Instr::Return { from, size } => is_place(from, object) && is_sized(size, object),
        Instr::Print { items } => check_all(items, object),
        Instr::Trap { .. } => true,
        Instr::Call { .. } | Instr::Dispatch { .. } | Instr::Super { .. } | Instr::Witness { .. } =>
            check_enter(instr, level, object),
        _ => check_object(instr, object),
    }
}

fn check_code(level: Level, code: &[Instr], object: &Object) -> bool
    ensures { result ≡ code_passes object.now level code.now 0 code.now }
{
    for (at, instr) in code.iter().enumerate() {
        if !check_instr(instr, level, code, at as u64, object) {
            return false;
        }
    }
    true
}

/// Whether the code begins with a tick, where its function is timed.
pub fn begins_well(level: Level, code: &[Instr]) -> bool
    ensures { result ≡ begins_well level code.now }
{
    match level {
        Level::Timed => has_tick(code, 0),
        _ => true,
    }
}

fn is_exported_well(level: Level, exported: bool) -> bool
    ensures { result ≡ is_exported_well level exported }
{
    !exported || is_timed(level) || rank(level) == 0
}

impl Checked for Function {
    ghost passes = { function_passes };

    fn check(&self, object: &Object) -> bool {
        let code = self.code.as_slice();
        begins_well(self.level, code)
            && is_exported_well(self.level, self.exported)
            && check_all(&self.slots, object)
            && is_sized(&self.result, object)
            && check_code(self.level, code, object)
    }
}

impl Checked for SizeRecord {
    ghost passes = { size_passes };

    fn check(&self, object: &Object) -> bool {
        is_sized(&self.layout, object)
    }
}

// Whether the function with this number is there and timed.
fn names_timed(object: &Object, number: u64) -> bool
    ensures { result ≡ level_passes is_timed (slice_get object.now.functions number) }
{
    match object.functions.as_slice().get(number as usize) {
        Some(function) => is_timed(function.level),
        None => false,
    }
}

// Whether the function with this number is there, and timed or of a level that a witness may have.
fn names_low(object: &Object, number: u64) -> bool
    ensures { result ≡ level_passes is_low (slice_get object.now.functions number) }
{
    match object.functions.as_slice().get(number as usize) {
        Some(function) => is_low(function.level),
        None => false,
    }
}

fn all_timed(entries: &List<CodeEntry>, object: &Object) -> bool
    ensures { result ≡ list_all (entry_passes object.now is_timed) entries.now }
{
    for entry in entries.as_slice() {
        if !names_timed(object, entry.function) {
            return false;
        }
    }
    true
}

fn all_low(entries: &List<CodeEntry>, object: &Object) -> bool
    ensures { result ≡ list_all (entry_passes object.now is_low) entries.now }
{
    for entry in entries.as_slice() {
        if !names_low(object, entry.function) {
            return false;
        }
    }
    true
}

impl Checked for ClassRecord {
    ghost passes = { class_passes };

    fn check(&self, object: &Object) -> bool {
        has_optional(object, ImportKind::Class, &self.superclass)
            && all_timed(&self.entries, object)
    }
}

impl Checked for Requirement {
    ghost passes = { requirement_passes };

    fn check(&self, object: &Object) -> bool {
        match self.fallback {
            None => true,
            Some(number) => names_low(object, number),
        }
    }
}

fn check_subtable(
    subtable: &SubRequirement,
    requirements: &List<Requirement>,
    object: &Object,
) -> bool
    ensures { result ≡ subtable_passes object.now requirements.now subtable.now }
{
    has_optional(object, ImportKind::Conformance, &subtable.fallback)
        && !is_named(requirements, subtable.name.as_slice())
}

fn check_subtables(
    subtables: &List<SubRequirement>,
    requirements: &List<Requirement>,
    object: &Object,
) -> bool
    ensures { result ≡ list_all (subtable_passes object.now requirements.now) subtables.now }
{
    for subtable in subtables.as_slice() {
        if !check_subtable(subtable, requirements, object) {
            return false;
        }
    }
    true
}

impl Checked for ProtocolRecord {
    ghost passes = { protocol_passes };

    fn check(&self, object: &Object) -> bool {
        check_all(&self.requirements, object)
            && check_subtables(&self.subtables, &self.requirements, object)
    }
}

impl Checked for SubEntry {
    ghost passes = { sub_entry_passes };

    fn check(&self, object: &Object) -> bool {
        has(object, ImportKind::Conformance, &self.conformance)
    }
}

impl Checked for ConfRecord {
    ghost passes = { conformance_passes };

    fn check(&self, object: &Object) -> bool {
        has(object, ImportKind::Protocol, &self.protocol)
            && all_low(&self.entries, object)
            && check_all(&self.subtables, object)
    }
}

/// Whether an object passes the load check. It takes no memory.
pub fn loads(object: &Object) -> bool
    ensures { result ≡ passes object.now }
{
    check_all(&object.functions, object)
        && check_all(&object.sizes, object)
        && check_all(&object.classes, object)
        && check_all(&object.protocols, object)
        && check_all(&object.conformances, object)
}
