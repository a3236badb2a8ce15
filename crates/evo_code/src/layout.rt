//! How many words something has, and where in a frame it lies.

use evo_base::Name;
use sqlite_items::Items;

/// The text by which objects name what they define and what they import.
pub type Symbol = Name;

/// How many words something has. The sizes of other libraries' types stay symbols until objects are linked.
#[derive(Drop)]
pub enum Layout {
    /// So many words.
    Words(u64),
    /// As many words as the symbol's size.
    SizeOf(Symbol),
    /// All of these, one behind the other.
    Sum(Items<Layout>),
    /// The largest of these.
    Max(Items<Layout>),
}

/// A place in the frame of a function: so many words behind the beginning of a slot.
#[derive(Drop)]
pub struct Operand {
    pub slot: u64,
    pub offset: Layout,
}
