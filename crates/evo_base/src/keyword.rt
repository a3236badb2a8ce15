//! The keywords of the language.

ghost use Rattle.std.specs.Prelude.{◌≡◌, ◌↔◌, IsTrue};
ghost use Rattle.std.specs.List.{list_any};
ghost use Rattle.std.specs.Str.{bytes_eq};
ghost use Rattle.evo_base.specs.Keywords as spec;
ghost use Rattle.evo_base.specs.Keywords.{IsKeyword};

/// The words that name nothing.
pub static KEYWORDS: [&[u8]; 35] = [
    b"import",
    b"struct",
    b"enum",
    b"class",
    b"protocol",
    b"extension",
    b"func",
    b"init",
    b"var",
    b"let",
    b"typealias",
    b"associatedtype",
    b"case",
    b"open",
    b"public",
    b"internal",
    b"private",
    b"final",
    b"static",
    b"mutating",
    b"override",
    b"self",
    b"Self",
    b"super",
    b"return",
    b"if",
    b"else",
    b"while",
    b"switch",
    b"default",
    b"break",
    b"continue",
    b"true",
    b"false",
    b"where",
];

/// Whether the word is among these words.
pub fn is_one_of(words: &[&[u8]], word: &[u8]) -> bool
    ensures { result ≡ list_any (λ k. bytes_eq k.now word.now) words.now }
{
    for one in words {
        if *one == word {
            return true;
        }
    }
    false
}

/// Whether the word is a keyword.
#[tactic(auto, unfolding(crate::specs::Keywords::is_keyword))]
pub fn is_keyword(word: &[u8]) -> bool
    ensures value { result ≡ spec.is_keyword word.now }
    ensures says { IsTrue result ↔ IsKeyword word.now }
{
    is_one_of(&KEYWORDS, word)
}
