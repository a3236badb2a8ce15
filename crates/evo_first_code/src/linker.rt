ghost use Rattle.std.specs.Prelude.{◌≡◌, ◌++◌};
ghost use Rattle.evo_execution.specs.Tables.{symbols_of};
ghost use Rattle.evo_first_code.specs.Linking.{Links, Checks, ChecksOwn, ChecksAll, TableOf, BeginsWith, Exports, Joins};
ghost use Rattle.evo_first_code.specs.Works.{AreTimed, exports as the_test, is_exported as the_export, image_of as the_image};
ghost use Rattle.evo_first_code.specs.declared.linker.LinkFault.TheVariants.{Memory};

use crate::symbol::START;
use evo_base::{List, Name, NameTable};
use evo_code::{Function, Image, Import, ImportKind, Object, Symbol};
use std::alloc::{AllocError, AllocFailed, Global};

/// Why two objects make no image.
#[derive(Debug, Drop)]
pub enum LinkFault {
    /// A symbol that is defined twice, in one object or in both.
    Twice(Symbol),
    /// A symbol that is needed and that the other object does not export.
    Missing(Symbol),
    /// No memory was left.
    Memory,
}

impl From<AllocError> for LinkFault {
    ghost from_gives = { λ _ e. e ≡ Memory };

    fn from(_: AllocError) -> Self {
        LinkFault::Memory
    }
}

impl<T: Drop> From<AllocFailed<T>> for LinkFault {
    ghost from_gives = { λ _ e. e ≡ Memory };

    fn from(_: AllocFailed<T>) -> Self {
        LinkFault::Memory
    }
}

// The symbols of functions, where none is there twice.
fn table_of(alloc: Global, functions: &[Function]) -> Result<NameTable, LinkFault>
    ensures { TableOf functions.now result }
{
    let mut symbols = NameTable::new(alloc);
    for function in functions {
        if !symbols.insert(alloc, function.symbol.as_slice())? {
            return Err(LinkFault::Twice(function.symbol.copy(alloc)?));
        }
    }
    Ok(symbols)
}

// Whether there is a function with this symbol that other objects may call. The table begins with the symbols
// of these functions.
fn exports(symbols: &NameTable, functions: &[Function], symbol: &[u8]) -> bool
    requires { BeginsWith (symbols_of functions.now) symbols.now }
    ensures { result ≡ the_test functions.now symbol.now }
{
    let Some(place) = symbols.position(symbol) else {
        return false;
    };
    match functions.get(place) {
        Some(function) => function.exported,
        None => false,
    }
}

// Whether an import is one of these functions, and other objects may call it.
fn is_exported(symbols: &NameTable, functions: &[Function], import: &Import) -> bool
    requires { BeginsWith (symbols_of functions.now) symbols.now }
    ensures { result ≡ the_export functions.now import.now }
{
    match import.kind {
        ImportKind::Function => exports(symbols, functions, import.symbol.as_slice()),
        _ => false,
    }
}

// Whether each of these is exported.
fn check_exported(
    alloc: Global,
    symbols: &NameTable,
    functions: &[Function],
    imports: &[Import],
) -> Result<(), LinkFault>
    requires { BeginsWith (symbols_of functions.now) symbols.now }
    ensures { Exports functions.now imports.now result }
{
    for import in imports {
        if !is_exported(symbols, functions, import) {
            return Err(LinkFault::Missing(import.symbol.copy(alloc)?));
        }
    }
    Ok(())
}

// Whether what a library needs is exported by the client's functions.
fn check_own(alloc: Global, own: &[Function], needed: &[Import]) -> Result<(), LinkFault>
    ensures { ChecksOwn own.now needed.now result }
{
    let symbols = table_of(alloc, own)?;
    check_exported(alloc, &symbols, own, needed)
}

// Whether what a client needs is exported by the library's functions, and there is a top level among all symbols.
fn check_all(
    alloc: Global,
    symbols: &NameTable,
    theirs: &[Function],
    imports: &[Import],
) -> Result<(), LinkFault>
    requires { BeginsWith (symbols_of theirs.now) symbols.now }
    ensures { ChecksAll theirs.now symbols.now imports.now result }
{
    check_exported(alloc, symbols, theirs, imports)?;
    if symbols.position(START).is_none() {
        return Err(LinkFault::Missing(Name::from_vec(START.to_vec(alloc)?)));
    }
    Ok(())
}

// Whether a library's functions and a client's, which stand behind them, make an image.
fn check(
    alloc: Global,
    theirs: &[Function],
    own: &[Function],
    all: &[Function],
    needed: &[Import],
    imports: &[Import],
) -> Result<(), LinkFault>
    requires { all.now ≡ theirs.now ++ own.now }
    ensures { Checks theirs.now own.now needed.now imports.now result }
{
    check_own(alloc, own, needed)?;
    let symbols = table_of(alloc, all)?;
    check_all(alloc, &symbols, theirs, imports)?;
    Ok(())
}

// A library's functions and a client's behind them, where they make an image.
fn joined(
    alloc: Global,
    library: Vec<Function>,
    client: Vec<Function>,
    needed: &[Import],
    imports: &[Import],
) -> Result<List<Function>, LinkFault>
    ensures { Joins library.items client.items needed.now imports.now result }
{
    let count = library.len();
    let mut functions = library;
    let mut more = client;
    functions.append(&mut more)?;
    let (theirs, own) = functions.split_at(count);
    check(alloc, theirs, own, &functions, needed, imports)?;
    Ok(List::from_vec(functions))
}

// The image of these functions, of which so many are the library's.
fn image_of(alloc: Global, functions: List<Function>, library: usize) -> Image
    ensures { result ≡ the_image functions library }
{
    Image {
        functions,
        library: library as u64,
        sizes: List::from_vec(Vec::new(alloc)),
        classes: List::from_vec(Vec::new(alloc)),
        conformances: List::from_vec(Vec::new(alloc)),
    }
}

/// The image of a library's object and a client's: the library's functions and then the client's. What the
/// code of either needs must be exported by the other.
pub fn link(alloc: Global, library: Object, client: Object) -> Result<Image, LinkFault>
    requires library { AreTimed library.functions }
    requires client { AreTimed client.functions }
    ensures { Links library client result }
{
    let Object {
        imports: needed,
        functions: theirs,
        ..
    } = library;
    let Object {
        imports,
        functions: own,
        ..
    } = client;
    let count = theirs.as_slice().len();
    let functions = joined(
        alloc,
        theirs.into_vec(),
        own.into_vec(),
        needed.as_slice(),
        imports.as_slice(),
    )?;
    Ok(image_of(alloc, functions, count))
}
