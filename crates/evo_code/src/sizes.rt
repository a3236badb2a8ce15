//! The words of layouts.

ghost use Rattle.std.specs.Prelude.{◌≡◌, map, min, sum};
ghost use Rattle.evo_code.specs.Layouts.{value, largest, most_words, words_of};

use crate::image::Sizes;
use crate::layout::Layout;
use sqlite_items::Items;

// The words of the first record with this symbol, or 0.
fn words_of(sizes: &Sizes, symbol: &[u8]) -> u64
    ensures { result ≡ words_of sizes.now symbol.now }
{
    for record in sizes.as_slice() {
        if record.symbol.as_slice() == symbol {
            return record.words;
        }
    }
    0
}

/// How many words a layout has. A symbol without a size counts none; the table of an image has them all.
#[cycle(values)]
pub fn value(layout: &Layout, sizes: &Sizes) -> u64
    ensures { result ≡ value sizes.now layout.now }
{
    match layout {
        Layout::Words(words) => *words,
        Layout::SizeOf(symbol) => words_of(sizes, symbol.as_slice()),
        Layout::Sum(parts) => sum_of(parts, sizes),
        Layout::Max(parts) => largest_of(parts, sizes),
    }
}

#[cycle(values)]
fn sum_of(parts: &Items<Layout>, sizes: &Sizes) -> u64
    ensures { result ≡ min most_words (sum (map (value sizes.now) parts.now)) }
{
    let mut words: u64 = 0;
    for part in parts.as_slice() {
        words = words.saturating_add(value(part, sizes));
    }
    words
}

#[cycle(values)]
fn largest_of(parts: &Items<Layout>, sizes: &Sizes) -> u64
    ensures { result ≡ largest (map (value sizes.now) parts.now) }
{
    let mut words: u64 = 0;
    for part in parts.as_slice() {
        words = words.max(value(part, sizes));
    }
    words
}
