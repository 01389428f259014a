// Written by enumset_derive enumset_bench rights from Right, Role: change the source, and write this again.

//! The element types of the job that decides requests.

use enumset::{EnumSet, EnumSetNames, EnumSetType, EnumSetTypeWithRepr, names_of, set_json};

/// What may be done with a document, on bits 0 to 19.
#[derive(Clone, Copy, PartialEq, Eq, Debug, PartialOrd, Ord)]
pub enum Right {
    Read,
    Write,
    Share,
    Delete,
    Comment,
    Approve,
    Publish,
    Archive,
    Restore,
    Rename,
    Move,
    Copy,
    Print,
    Export,
    Import,
    Translate,
    Sign,
    Encrypt,
    ChangeOwner,
    ManageAccess,
}

impl EnumSetType for Right {
    ghost use Rattle.std.specs.Prelude.{◌∷◌, []};
    ghost use Rattle.enumset.specs.Sets.{in_place, lawful_in_integer, lawful_in_place};
    ghost use Rattle.enumset_bench.specs.contracts.rights.Right.{the_type};
    ghost use Rattle.enumset_bench.specs.declared.rights.Right.TheVariants as variant;

    type Repr = u32;

    ghost elements = { in_place the_type };

    ghost values = { variant.Read ∷ variant.Write ∷ variant.Share ∷ variant.Delete ∷
        variant.Comment ∷ variant.Approve ∷ variant.Publish ∷ variant.Archive ∷
        variant.Restore ∷ variant.Rename ∷ variant.Move ∷ variant.Copy ∷ variant.Print ∷
        variant.Export ∷ variant.Import ∷ variant.Translate ∷ variant.Sign ∷
        variant.Encrypt ∷ variant.ChangeOwner ∷ variant.ManageAccess ∷ [] };

    ghost ALL_BITS = { 1048575 };

    const ALL_BITS: u32 = 0xFFFFF;

    ghost BIT_WIDTH = { 20 };

    const BIT_WIDTH: u32 = 20;

    ghost VARIANT_COUNT = { 20 };

    const VARIANT_COUNT: u32 = 20;

    fn enum_into_u32(self) -> u32 {
        self as u32
    }

    fn enum_from_u32(val: u32) -> Self {
        match val {
            0 => Self::Read,
            1 => Self::Write,
            2 => Self::Share,
            3 => Self::Delete,
            4 => Self::Comment,
            5 => Self::Approve,
            6 => Self::Publish,
            7 => Self::Archive,
            8 => Self::Restore,
            9 => Self::Rename,
            10 => Self::Move,
            11 => Self::Copy,
            12 => Self::Print,
            13 => Self::Export,
            14 => Self::Import,
            15 => Self::Translate,
            16 => Self::Sign,
            17 => Self::Encrypt,
            18 => Self::ChangeOwner,
            19 => Self::ManageAccess,
            _ => unreachable!(),
        }
    }

    ghost lawful = { lawful_in_place the_type (lawful_in_integer the_type _ tt) };
}

impl EnumSetTypeWithRepr for Right {
    ghost use Rattle.std.proofs.Common.{rules};

    ghost narrow = { Prim.search rules };
}

#[tactic(auto, unfolding(enumset::specs::Sets::place))]
impl EnumSetNames for Right {
    ghost use Rattle.std.specs.Prelude.{codes, ◌∷◌, []};

    ghost names = { codes "Read" ∷ codes "Write" ∷ codes "Share" ∷ codes "Delete" ∷
        codes "Comment" ∷ codes "Approve" ∷ codes "Publish" ∷ codes "Archive" ∷
        codes "Restore" ∷ codes "Rename" ∷ codes "Move" ∷ codes "Copy" ∷ codes "Print" ∷
        codes "Export" ∷ codes "Import" ∷ codes "Translate" ∷ codes "Sign" ∷
        codes "Encrypt" ∷ codes "ChangeOwner" ∷ codes "ManageAccess" ∷ [] };

    fn names() -> &'static [(Self, &'static str)] {
        names_of!(
            Right: Read Write Share Delete Comment Approve Publish Archive Restore Rename Move Copy
            Print Export Import Translate Sign Encrypt ChangeOwner ManageAccess
        )
    }

    ghost named = { tt };
}

/// The name of the variant.
impl std::fmt::Display for Right {
    ghost use Rattle.std.specs.Prelude.{Some, ◌∷◌, [], codes};
    ghost use Rattle.std.specs.List.{slice_index_or};
    ghost use denote.Enum.Declared.{tag_of};
    ghost use Rattle.enumset_bench.specs.contracts.rights.Right.{the_type};

    ghost output = { λ v. Some (slice_index_or
        (codes "Read" ∷ codes "Write" ∷ codes "Share" ∷ codes "Delete" ∷
        codes "Comment" ∷ codes "Approve" ∷ codes "Publish" ∷ codes "Archive" ∷
        codes "Restore" ∷ codes "Rename" ∷ codes "Move" ∷ codes "Copy" ∷ codes "Print" ∷
        codes "Export" ∷ codes "Import" ∷ codes "Translate" ∷ codes "Sign" ∷
        codes "Encrypt" ∷ codes "ChangeOwner" ∷ codes "ManageAccess" ∷ [])
        (tag_of the_type v) []) };

    fn fmt<W: std::fmt::Write>(&self, f: &mut std::fmt::Formatter<W>) -> std::fmt::Result {
        match self {
            Self::Read => f.write_str("Read"),
            Self::Write => f.write_str("Write"),
            Self::Share => f.write_str("Share"),
            Self::Delete => f.write_str("Delete"),
            Self::Comment => f.write_str("Comment"),
            Self::Approve => f.write_str("Approve"),
            Self::Publish => f.write_str("Publish"),
            Self::Archive => f.write_str("Archive"),
            Self::Restore => f.write_str("Restore"),
            Self::Rename => f.write_str("Rename"),
            Self::Move => f.write_str("Move"),
            Self::Copy => f.write_str("Copy"),
            Self::Print => f.write_str("Print"),
            Self::Export => f.write_str("Export"),
            Self::Import => f.write_str("Import"),
            Self::Translate => f.write_str("Translate"),
            Self::Sign => f.write_str("Sign"),
            Self::Encrypt => f.write_str("Encrypt"),
            Self::ChangeOwner => f.write_str("ChangeOwner"),
            Self::ManageAccess => f.write_str("ManageAccess"),
        }
    }
}

impl Right {
    ghost use Rattle.std.specs.Prelude.{◌≡◌, IfOk, IfErr, Some, string_bytes};
    ghost use Rattle.serde_json.specs.Written.{compact_text};
    ghost use Rattle.serde_json.specs.Read.{read};
    ghost use Rattle.serde_json.specs.View.{view};
    ghost use Rattle.enumset.specs.Names.{names_of};
    ghost use Rattle.enumset.specs.JsonNames.{list_value, set_of_list};
    ghost use Rattle.enumset.specs.JsonPlain.{IsPlainList};
    ghost use Rattle.enumset.specs.JsonReads.{value_read, IsResult, IsReadOf};
    ghost use Rattle.enumset.specs.declared.set_json.fault.JsonFault.TheVariants.{OutOfMemory};
    ghost use Rattle.enumset.specs.declared.set_json.unknown.Unknown.TheVariants as unknown;

    /// The array of the names of the set's members, in ascending order of their bits. The only fault is
    /// [`set_json::JsonFault::OutOfMemory`].
    pub fn to_json(
        alloc: std::alloc::Global,
        set: &EnumSet<Self>,
    ) -> std::result::Result<serde_json::Value, set_json::JsonFault>
        ensures value { IfOk result (λ value. view value ≡ list_value
            (names_of ⟦<Right as EnumSetType>⟧.elements ⟦<Right as EnumSetNames>⟧.names) set.now) }
        ensures fault { IfErr result (λ fault. fault ≡ OutOfMemory) }
    {
        set_json::to_list(alloc, set)
    }

    /// The set that `to_json` writes as this value. Names that no variant has are left out.
    ///
    /// The faults are those of [`set_json::from_list`], in the same order. It does not allocate.
    pub fn from_json(
        value: &serde_json::Value,
    ) -> std::result::Result<EnumSet<Self>, set_json::JsonFault>
        ensures { result ≡ set_of_list
            (names_of ⟦<Right as EnumSetType>⟧.elements ⟦<Right as EnumSetNames>⟧.names)
            unknown.Drop (view value.now) }
    {
        set_json::from_list(value, set_json::Unknown::Drop)
    }

    /// The string of `to_json`'s value, without spaces. The only fault is
    /// [`set_json::JsonFault::OutOfMemory`].
    pub fn to_json_text(
        alloc: std::alloc::Global,
        set: &EnumSet<Self>,
    ) -> std::result::Result<std::string::String, set_json::JsonFault>
        ensures text { IfOk result (λ text. string_bytes text
            ≡ compact_text (list_value
            (names_of ⟦<Right as EnumSetType>⟧.elements ⟦<Right as EnumSetNames>⟧.names) set.now)) }
        ensures reads { IfOk result (λ text. read (string_bytes text)
            ≡ Some (list_value
            (names_of ⟦<Right as EnumSetType>⟧.elements ⟦<Right as EnumSetNames>⟧.names) set.now)) }
        ensures fault { IfErr result (λ fault. fault ≡ OutOfMemory) }
    {
        set_json::to_list_text(alloc, set)
    }

    /// What `from_json` returns of the value that this string is read as. Names that no variant has are left out.
    ///
    /// The faults are those of [`set_json::from_list_text`].
    pub fn from_json_text(
        alloc: std::alloc::Global,
        text: &str,
    ) -> std::result::Result<EnumSet<Self>, set_json::JsonFault>
        ensures read { IsReadOf (set_of_list
            (names_of ⟦<Right as EnumSetType>⟧.elements ⟦<Right as EnumSetNames>⟧.names)
            unknown.Drop) text.now result }
        ensures plain { IsPlainList text.now → IsResult (value_read (set_of_list
            (names_of ⟦<Right as EnumSetType>⟧.elements ⟦<Right as EnumSetNames>⟧.names)
            unknown.Drop) text.now) result }
    {
        set_json::from_list_text(alloc, text, set_json::Unknown::Drop)
    }
}

/// What a user may be, on bits 0 to 11.
#[derive(Clone, Copy, PartialEq, Eq, Debug)]
pub enum Role {
    Guest,
    Reader,
    Commenter,
    Author,
    Editor,
    Reviewer,
    Translator,
    Publisher,
    Archivist,
    Auditor,
    Manager,
    Owner,
}

impl EnumSetType for Role {
    ghost use Rattle.enumset.specs.Sets.{in_place, lawful_in_integer, lawful_in_place};
    ghost use Rattle.enumset_bench.specs.contracts.rights.Role.{the_type};

    type Repr = u16;

    ghost elements = { in_place the_type };

    ghost ALL_BITS = { 4095 };

    const ALL_BITS: u16 = 0xFFF;

    ghost BIT_WIDTH = { 12 };

    const BIT_WIDTH: u32 = 12;

    ghost VARIANT_COUNT = { 12 };

    const VARIANT_COUNT: u32 = 12;

    fn enum_into_u32(self) -> u32 {
        self as u32
    }

    fn enum_from_u32(val: u32) -> Self {
        match val {
            0 => Self::Guest,
            1 => Self::Reader,
            2 => Self::Commenter,
            3 => Self::Author,
            4 => Self::Editor,
            5 => Self::Reviewer,
            6 => Self::Translator,
            7 => Self::Publisher,
            8 => Self::Archivist,
            9 => Self::Auditor,
            10 => Self::Manager,
            11 => Self::Owner,
            _ => unreachable!(),
        }
    }

    ghost lawful = { lawful_in_place the_type (lawful_in_integer the_type _ tt) };
}

impl EnumSetTypeWithRepr for Role {
    ghost use Rattle.std.proofs.Common.{rules};

    ghost narrow = { Prim.search rules };
}
