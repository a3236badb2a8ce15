//! The numbers of texts in a list, grouped by text.

ghost use Rattle.std.specs.Prelude.{◌≡◌, ◌<◌, ◌++◌, ◌∷◌, [], IfOk, OnOk, length, map, slice_get};
ghost use Rattle.evo_declarations.specs.Groups.{Added, IsEven, IsGrouped, group_of, pushed};

use evo_base::NameTable;
use std::alloc::{AllocError, Global};
use std::marker::Model;

/// Numbers, ascending.
#[derive(Drop)]
struct Group {
    numbers: Vec<usize>,
}

impl Model for Group {
    ghost use Rattle.std.specs.Prelude.{List, ℕ};

    ghost Value = { List ℕ };

    ghost view = { λ g. g.numbers.items };
}

impl Group {
    fn new(alloc: Global) -> Group
        ensures { result ≡ [] }
    {
        Group {
            numbers: Vec::new(alloc),
        }
    }

    fn push(&mut self, number: usize) -> Result<(), AllocError>
        ensures { OnOk result (self.new ≡ self.old ++ number ∷ []) }
    {
        self.numbers.push(number)?;
        Ok(())
    }

    fn as_slice(&self) -> &[usize]
        ensures { result.now ≡ self.now }
    {
        self.numbers.as_slice()
    }
}

/// The numbers that each text of a list has in it.
#[derive(Drop)]
pub struct Groups {
    texts: NameTable,
    groups: Vec<Group>,
}

fn push_at(groups: &mut Vec<Group>, place: usize, number: usize) -> Result<(), AllocError>
    requires { place < length groups.old.items }
    ensures { OnOk result (groups.new.items ≡ pushed groups.old.items place number) }
{
    groups[place].push(number)
}

fn push_group(alloc: Global, groups: &mut Vec<Group>, number: usize) -> Result<(), AllocError>
    ensures { OnOk result (groups.new.items ≡ groups.old.items ++ (number ∷ []) ∷ []) }
{
    let mut group = Group::new(alloc);
    group.push(number)?;
    groups.push(group)?;
    Ok(())
}

fn put(alloc: Global, found: &mut Groups, text: &[u8], number: usize) -> Result<(), AllocError>
    requires { IsEven found.old }
    ensures even { OnOk result (IsEven found.new) }
    ensures added { OnOk result (Added found.old found.new text.now number) }
{
    match found.texts.position(text) {
        Some(place) => push_at(&mut found.groups, place, number),
        None => {
            found.texts.insert(alloc, text)?;
            push_group(alloc, &mut found.groups, number)
        }
    }
}

/// The texts of a list, grouped.
pub fn groups_of(alloc: Global, texts: &[&[u8]]) -> Result<Groups, AllocError>
    ensures { IfOk result (λ g. IsGrouped (map (λ t. t.now) texts.now) g) }
{
    let mut found = Groups {
        texts: NameTable::new(alloc),
        groups: Vec::new(alloc),
    };
    for (number, text) in texts.iter().enumerate() {
        put(alloc, &mut found, text, number)?;
    }
    Ok(found)
}

impl Groups {
    /// The numbers that a text has, ascending.
    pub fn having(&self, text: &[u8]) -> &[usize]
        ensures { result.now ≡ group_of self.now text.now }
    {
        match self.texts.position(text) {
            Some(place) => match self.groups.get(place) {
                Some(group) => group.as_slice(),
                None => &[],
            },
            None => &[],
        }
    }
}
