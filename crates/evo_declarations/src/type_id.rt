//! Types and protocols by their names.

ghost use Rattle.std.specs.Prelude.{◌≡◌, true};
ghost use Rattle.std.specs.Str.{is_utf8};

/// A type or protocol at top level, by its module and its name, which are UTF-8.
#[derive(Clone, Copy)]
pub struct TypeId<'a> {
    pub module: &'a [u8],
    pub base: &'a [u8],
    ghost module_utf8: { is_utf8 «module».now ≡ true },
    ghost base_utf8: { is_utf8 base.now ≡ true },
}
