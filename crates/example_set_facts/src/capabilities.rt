// Written by enumset_derive example_set_facts capabilities from Capability: change the source, and write this again.

use enumset::{EnumSetType, EnumSetTypeWithRepr};

/// What a server can do, by its mask in the server's greeting.
#[derive(Clone, Copy, PartialEq, Eq, Debug)]
pub enum Capability {
    Compression = 0x0001,
    Encryption = 0x0002,
    Checksums = 0x0004,
    Pipelining = 0x0010,
    Streaming = 0x0020,
    Transactions = 0x0100,
    Snapshots = 0x0200,
    Replication = 0x0400,
    Failover = 0x1000,
}

impl EnumSetType for Capability {
    ghost use Rattle.std.specs.Prelude.{◌∷◌, []};
    ghost use Rattle.enumset.specs.Sets.{with_bits, lawful_in_integer};
    ghost use Rattle.example_set_facts.specs.contracts.capabilities.Capability.{the_type};

    type Repr = u16;

    ghost elements = { with_bits the_type (0 ∷ 1 ∷ 2 ∷ 4 ∷ 5 ∷ 8 ∷ 9 ∷ 10 ∷ 12 ∷ []) };

    ghost ALL_BITS = { 5943 };

    const ALL_BITS: u16 = 0x1737;

    ghost BIT_WIDTH = { 13 };

    const BIT_WIDTH: u32 = 13;

    ghost VARIANT_COUNT = { 9 };

    const VARIANT_COUNT: u32 = 9;

    fn enum_into_u32(self) -> u32 {
        match self {
            Self::Compression => 0,
            Self::Encryption => 1,
            Self::Checksums => 2,
            Self::Pipelining => 4,
            Self::Streaming => 5,
            Self::Transactions => 8,
            Self::Snapshots => 9,
            Self::Replication => 10,
            Self::Failover => 12,
        }
    }

    fn enum_from_u32(val: u32) -> Self {
        match val {
            0 => Self::Compression,
            1 => Self::Encryption,
            2 => Self::Checksums,
            4 => Self::Pipelining,
            5 => Self::Streaming,
            8 => Self::Transactions,
            9 => Self::Snapshots,
            10 => Self::Replication,
            12 => Self::Failover,
            _ => unreachable!(),
        }
    }

    ghost lawful = { lawful_in_integer the_type _ tt };
}

impl EnumSetTypeWithRepr for Capability {
    ghost use Rattle.std.proofs.Common.{rules};

    ghost narrow = { Prim.search rules };
}
