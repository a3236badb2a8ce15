ghost use Rattle.std.specs.Prelude.{◌≡◌};

/// A kind of fault in a source text.
#[derive(Clone, Copy, Debug, PartialEq, Eq)]
pub enum FaultKind {
    /// A byte that is not in UTF-8.
    NotUtf8,
    /// A character with which no token begins or goes on.
    BadToken,
    /// A token with which no spelling of the grammar goes on.
    Grammar,
    /// A token that nests more deeply than is allowed.
    Deep,
    /// A name that meets another declaration, or that is taken.
    Twice,
    /// A name in a header or an import that is none.
    Unknown,
    /// The item past a limit.
    TooMany,
    /// A name or a member in a body that is none or is hidden.
    NoSuchName,
    /// The second local of one name in one scope.
    LocalTwice,
    /// A call whose base exists with other labels.
    WrongLabels,
    /// An expression of another type than is needed.
    WrongType,
    /// An argument or a type that lacks a conformance.
    NoConformance,
    /// What is set and has no setter or is not mutable.
    NoSetter,
    /// A use of what is not available here.
    Unavailable,
    /// A generic parameter that is not determined, or a member that is found twice.
    Ambiguous,
    /// A path of associated types with too many names.
    PathTooLong,
    /// A conformance that lacks a witness, an associated type or an inherited conformance.
    MissingRequirement,
    /// A type that cannot have this conformance.
    BadConformer,
    /// A requirement that makes two named types equal.
    Conflict,
    /// An override that does not fit its root, or lacks one.
    BadOverride,
    /// A conformance of a foreign type to a foreign protocol.
    Retroactive,
    /// A type, a class or a protocol that leads to itself.
    ContainsItself,
    /// A class without an initialiser.
    NoInitialiser,
    /// A type in a header that is less visible than its declaration.
    HiddenType,
    /// A type of too many words.
    TooLarge,
    /// An end of a body that is reached without a result.
    MissingReturn,
    /// A `switch` that leaves a value out.
    NotExhaustive,
    /// A use of `self` or a property before it has a value.
    NotInitialised,
    /// A second assignment of a `let`.
    AssignedTwice,
    /// A `break` or `continue` with nothing to leave.
    StrayJump,
    /// An inlinable body that names a hidden declaration.
    InlinableHidden,
    /// Frozen storage that names a hidden type.
    FrozenHidden,
    /// An initialiser that must delegate to another.
    MustDelegate,
    /// An attribute or a modifier that may not stand here.
    Misplaced,
    /// A form of the language that is not built yet.
    NotBuilt,
}

impl FaultKind {
    ghost use Rattle.evo_base.specs.FaultText.{text_of};

    /// The text that is printed for this kind, in ASCII.
    pub fn text(&self) -> &'static str
        ensures { result.now ≡ text_of self.now }
    {
        match self {
            FaultKind::NotUtf8 => "text is not UTF-8",
            FaultKind::BadToken => "not a token",
            FaultKind::Grammar => "not in the grammar",
            FaultKind::Deep => "nested too deeply",
            FaultKind::Twice => "declared twice",
            FaultKind::Unknown => "unknown name",
            FaultKind::TooMany => "too many",
            FaultKind::NoSuchName => "no such name",
            FaultKind::LocalTwice => "local declared twice",
            FaultKind::WrongLabels => "wrong labels",
            FaultKind::WrongType => "wrong type",
            FaultKind::NoConformance => "no conformance",
            FaultKind::NoSetter => "cannot be set",
            FaultKind::Unavailable => "not available",
            FaultKind::Ambiguous => "ambiguous",
            FaultKind::PathTooLong => "associated path too long",
            FaultKind::MissingRequirement => "requirement is missing",
            FaultKind::BadConformer => "cannot conform",
            FaultKind::Conflict => "requirements conflict",
            FaultKind::BadOverride => "override does not fit",
            FaultKind::Retroactive => "retroactive conformance",
            FaultKind::ContainsItself => "contains itself",
            FaultKind::NoInitialiser => "class has no initialiser",
            FaultKind::HiddenType => "names a hidden type",
            FaultKind::TooLarge => "too large",
            FaultKind::MissingReturn => "missing return",
            FaultKind::NotExhaustive => "switch is not exhaustive",
            FaultKind::NotInitialised => "not initialised",
            FaultKind::AssignedTwice => "assigned twice",
            FaultKind::StrayJump => "nothing to leave",
            FaultKind::InlinableHidden => "inlinable body names a hidden declaration",
            FaultKind::FrozenHidden => "frozen storage names a hidden type",
            FaultKind::MustDelegate => "initialiser must delegate",
            FaultKind::Misplaced => "attribute or modifier is misplaced",
            FaultKind::NotBuilt => "not built yet",
        }
    }
}
