//! The input of the derive: the variants of an enum with their discriminants, and its options.

ghost use Rattle.std.specs.Prelude.{◌≡◌};
ghost use Rattle.enumset_derive.specs.Variants.{number_place};

use enumset_source::{Map, Number, Place, Representation, Serialized, Token};

/// An enum that is to become an element type, as it was read.
#[derive(Drop)]
pub struct EnumDeclaration<'a, 'b> {
    pub head: EnumHead<'a, 'b>,
    /// The other derives besides `EnumSetType`, in their order.
    pub derives: Vec<Derive<'a>>,
    pub options: Options<'a>,
    /// In the order of the declaration.
    pub variants: Vec<Variant<'a, 'b>>,
    /// The comments after the last variant.
    pub last_comments: Vec<Line<'a, 'b>>,
    /// The names of the variants in JSON, in their order.
    pub json_names: Vec<String>,
}

impl EnumDeclaration<'_, '_> {
    /// Its derive with this name, if it has one.
    pub fn derive(&self, name: &str) -> Option<Derive<'_>> {
        self.derives
            .iter()
            .copied()
            .find(|derive| derive.name == name)
    }
}

/// What is before the variants of an enum.
#[derive(Drop)]
pub struct EnumHead<'a, 'b> {
    /// The comments and the attributes before its first derive, except the derives and the options.
    pub lines: Vec<Line<'a, 'b>>,
    /// The comments and the attributes after its first derive, except the derives and the options.
    pub later_lines: Vec<Line<'a, 'b>>,
    /// Whether the enum exists only for tests.
    pub is_for_tests: bool,
    /// Its tokens, such as `pub(crate)`, or nothing.
    pub visibility: &'b [Token<'a>],
    pub name: Token<'a>,
}

/// A comment or an attribute that is kept and is written on its own line.
pub type Line<'a, 'b> = &'b [Token<'a>];

/// A derive of an enum.
#[derive(Clone, Copy)]
pub struct Derive<'a> {
    /// The last name of its path.
    pub name: &'a str,
    /// As it is written into the module.
    pub path: &'a str,
    pub place: Place,
}

/// What a variant is named in JSON.
#[derive(Clone, Copy)]
pub enum Rename<'a> {
    /// Its own name, in the style of the enum.
    Own,
    /// This name, which is given at this place.
    Given(&'a str, Place),
    /// It could not be read, as a fault says.
    Unread,
}

/// A variant without fields.
#[derive(Drop)]
pub struct Variant<'a, 'b> {
    /// Where the name is.
    pub place: Place,
    /// The comments and the attributes before it.
    pub lines: Vec<Line<'a, 'b>>,
    /// Whether an empty line is before it.
    pub is_apart: bool,
    pub name: &'a str,
    pub rename: Rename<'a>,
    pub discriminant: Discriminant<'a>,
    /// The comments between its tokens, and those after it on its line.
    pub comments: Vec<&'a str>,
}

impl Variant<'_, '_> {
    /// Where its discriminant is, or its name if the discriminant is implied.
    pub fn number_place(&self) -> Place
        ensures { result ≡ number_place self.now }
    {
        match self.discriminant {
            Discriminant::Given(given) => given.place,
            Discriminant::Implied | Discriminant::Unread => self.place,
        }
    }

    /// Where its name in JSON is given, or its own name.
    pub fn json_place(&self) -> Place {
        match self.rename {
            Rename::Given(_, place) => place,
            Rename::Own | Rename::Unread => self.place,
        }
    }
}

/// The discriminant of a variant.
#[derive(Clone, Copy)]
pub enum Discriminant<'a> {
    /// One more than that of the variant before, or 0.
    Implied,
    Given(Given<'a>),
    /// It could not be read, as a fault says.
    Unread,
}

/// A discriminant that is given.
#[derive(Clone, Copy)]
pub struct Given<'a> {
    /// Where it begins.
    pub place: Place,
    /// The literal in the source, such as `0x1F`, without a minus sign and a type. `None` for `1 << n` and for a byte.
    pub literal: Option<&'a str>,
    pub number: Number,
}

/// The options of an element type. The default has none.
#[derive(Clone, Copy, Default)]
pub struct Options<'a> {
    /// `map`: which bit a discriminant names, by default `Lsb`. With the place of its value.
    pub map: Option<(Map, Place)>,
    /// `repr`: what a set is stored in.
    pub representation: Option<Representation>,
    /// `serialize_repr`: what a set is in JSON.
    pub serialized: Option<Serialized>,
    /// `serialize_deny_unknown`: whether a set in JSON with an unknown bit is rejected.
    pub denies_unknown: bool,
    /// `no_ops`: whether the operators on elements are left out.
    pub leaves_out_operators: bool,
    /// `no_super_impls`: whether the derives of `Clone`, `Copy`, `PartialEq` and `Eq` are left out.
    pub leaves_out_supertraits: bool,
    /// `display`: whether a `Display` that prints the variant's name is written.
    pub has_display: bool,
    /// `parse`: whether a `FromStr` that reads the variant's name is written.
    pub is_parsed: bool,
    /// `crate_name`: the library that the module is over, by default `enumset`. With the place of its value.
    pub library: Option<(Library<'a>, Place)>,
}

/// The library that a module has element types and sets from.
#[derive(Clone, Copy)]
pub enum Library<'a> {
    /// `enumset`, by this name in code.
    Whole(&'a str),
    /// `enumset_sets`, which has no macros, no lists of names and no sets in JSON.
    SetsAlone,
}

impl<'a> Library<'a> {
    /// The library with this name in code.
    pub fn named(name: &'a str) -> Library<'a> {
        match name {
            "enumset_sets" => Library::SetsAlone,
            name => Library::Whole(name),
        }
    }

    /// Its name in code.
    pub fn name(self) -> &'a str {
        match self {
            Library::Whole(name) => name,
            Library::SetsAlone => "enumset_sets",
        }
    }

    /// Its name in clauses.
    pub fn cited(self) -> &'static str {
        match self {
            Library::Whole(_) => "enumset",
            Library::SetsAlone => "enumset_sets",
        }
    }

    /// Whether it is `enumset_sets`.
    pub fn is_sets_alone(self) -> bool {
        matches!(self, Library::SetsAlone)
    }
}

impl<'a> Options<'a> {
    /// The library that the module is over.
    pub fn library(&self) -> Library<'a> {
        self.library
            .map_or(Library::Whole("enumset"), |(library, _)| library)
    }

    /// Whether sets in JSON consist of the names of their elements.
    pub fn are_named(&self) -> bool {
        matches!(self.serialized, Some(Serialized::List | Serialized::Map))
    }

    /// Whether the element type has a list of names, for sets in JSON or for `parse`.
    pub fn has_names(&self) -> bool {
        self.are_named() || self.is_parsed
    }
}
