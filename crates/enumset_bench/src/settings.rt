// Written by enumset_derive enumset_bench settings from Setting: change the source, and write this again.

//! The element type of settings, whose names are long and begin alike.

use enumset::{EnumSet, EnumSetNames, EnumSetType, EnumSetTypeWithRepr, names_of, set_json};

/// The rooms whose lights stay on, on bits 0 to 95.
#[derive(Clone, Copy, PartialEq, Eq, Debug, PartialOrd, Ord)]
pub enum Setting {
    KeepLightsOnAfterHoursInNorthWingUpperFloorRoom01,
    KeepLightsOnAfterHoursInNorthWingUpperFloorRoom02,
    KeepLightsOnAfterHoursInNorthWingUpperFloorRoom03,
    KeepLightsOnAfterHoursInNorthWingUpperFloorRoom04,
    KeepLightsOnAfterHoursInNorthWingUpperFloorRoom05,
    KeepLightsOnAfterHoursInNorthWingUpperFloorRoom06,
    KeepLightsOnAfterHoursInNorthWingUpperFloorRoom07,
    KeepLightsOnAfterHoursInNorthWingUpperFloorRoom08,
    KeepLightsOnAfterHoursInNorthWingUpperFloorRoom09,
    KeepLightsOnAfterHoursInNorthWingUpperFloorRoom10,
    KeepLightsOnAfterHoursInNorthWingUpperFloorRoom11,
    KeepLightsOnAfterHoursInNorthWingUpperFloorRoom12,
    KeepLightsOnAfterHoursInNorthWingUpperFloorRoom13,
    KeepLightsOnAfterHoursInNorthWingUpperFloorRoom14,
    KeepLightsOnAfterHoursInNorthWingUpperFloorRoom15,
    KeepLightsOnAfterHoursInNorthWingUpperFloorRoom16,
    KeepLightsOnAfterHoursInNorthWingLowerFloorRoom01,
    KeepLightsOnAfterHoursInNorthWingLowerFloorRoom02,
    KeepLightsOnAfterHoursInNorthWingLowerFloorRoom03,
    KeepLightsOnAfterHoursInNorthWingLowerFloorRoom04,
    KeepLightsOnAfterHoursInNorthWingLowerFloorRoom05,
    KeepLightsOnAfterHoursInNorthWingLowerFloorRoom06,
    KeepLightsOnAfterHoursInNorthWingLowerFloorRoom07,
    KeepLightsOnAfterHoursInNorthWingLowerFloorRoom08,
    KeepLightsOnAfterHoursInNorthWingLowerFloorRoom09,
    KeepLightsOnAfterHoursInNorthWingLowerFloorRoom10,
    KeepLightsOnAfterHoursInNorthWingLowerFloorRoom11,
    KeepLightsOnAfterHoursInNorthWingLowerFloorRoom12,
    KeepLightsOnAfterHoursInNorthWingLowerFloorRoom13,
    KeepLightsOnAfterHoursInNorthWingLowerFloorRoom14,
    KeepLightsOnAfterHoursInNorthWingLowerFloorRoom15,
    KeepLightsOnAfterHoursInNorthWingLowerFloorRoom16,
    KeepLightsOnAfterHoursInSouthWingUpperFloorRoom01,
    KeepLightsOnAfterHoursInSouthWingUpperFloorRoom02,
    KeepLightsOnAfterHoursInSouthWingUpperFloorRoom03,
    KeepLightsOnAfterHoursInSouthWingUpperFloorRoom04,
    KeepLightsOnAfterHoursInSouthWingUpperFloorRoom05,
    KeepLightsOnAfterHoursInSouthWingUpperFloorRoom06,
    KeepLightsOnAfterHoursInSouthWingUpperFloorRoom07,
    KeepLightsOnAfterHoursInSouthWingUpperFloorRoom08,
    KeepLightsOnAfterHoursInSouthWingUpperFloorRoom09,
    KeepLightsOnAfterHoursInSouthWingUpperFloorRoom10,
    KeepLightsOnAfterHoursInSouthWingUpperFloorRoom11,
    KeepLightsOnAfterHoursInSouthWingUpperFloorRoom12,
    KeepLightsOnAfterHoursInSouthWingUpperFloorRoom13,
    KeepLightsOnAfterHoursInSouthWingUpperFloorRoom14,
    KeepLightsOnAfterHoursInSouthWingUpperFloorRoom15,
    KeepLightsOnAfterHoursInSouthWingUpperFloorRoom16,
    KeepLightsOnAfterHoursInSouthWingLowerFloorRoom01,
    KeepLightsOnAfterHoursInSouthWingLowerFloorRoom02,
    KeepLightsOnAfterHoursInSouthWingLowerFloorRoom03,
    KeepLightsOnAfterHoursInSouthWingLowerFloorRoom04,
    KeepLightsOnAfterHoursInSouthWingLowerFloorRoom05,
    KeepLightsOnAfterHoursInSouthWingLowerFloorRoom06,
    KeepLightsOnAfterHoursInSouthWingLowerFloorRoom07,
    KeepLightsOnAfterHoursInSouthWingLowerFloorRoom08,
    KeepLightsOnAfterHoursInSouthWingLowerFloorRoom09,
    KeepLightsOnAfterHoursInSouthWingLowerFloorRoom10,
    KeepLightsOnAfterHoursInSouthWingLowerFloorRoom11,
    KeepLightsOnAfterHoursInSouthWingLowerFloorRoom12,
    KeepLightsOnAfterHoursInSouthWingLowerFloorRoom13,
    KeepLightsOnAfterHoursInSouthWingLowerFloorRoom14,
    KeepLightsOnAfterHoursInSouthWingLowerFloorRoom15,
    KeepLightsOnAfterHoursInSouthWingLowerFloorRoom16,
    KeepLightsOnAfterHoursInInnerWingUpperFloorRoom01,
    KeepLightsOnAfterHoursInInnerWingUpperFloorRoom02,
    KeepLightsOnAfterHoursInInnerWingUpperFloorRoom03,
    KeepLightsOnAfterHoursInInnerWingUpperFloorRoom04,
    KeepLightsOnAfterHoursInInnerWingUpperFloorRoom05,
    KeepLightsOnAfterHoursInInnerWingUpperFloorRoom06,
    KeepLightsOnAfterHoursInInnerWingUpperFloorRoom07,
    KeepLightsOnAfterHoursInInnerWingUpperFloorRoom08,
    KeepLightsOnAfterHoursInInnerWingUpperFloorRoom09,
    KeepLightsOnAfterHoursInInnerWingUpperFloorRoom10,
    KeepLightsOnAfterHoursInInnerWingUpperFloorRoom11,
    KeepLightsOnAfterHoursInInnerWingUpperFloorRoom12,
    KeepLightsOnAfterHoursInInnerWingUpperFloorRoom13,
    KeepLightsOnAfterHoursInInnerWingUpperFloorRoom14,
    KeepLightsOnAfterHoursInInnerWingUpperFloorRoom15,
    KeepLightsOnAfterHoursInInnerWingUpperFloorRoom16,
    KeepLightsOnAfterHoursInInnerWingLowerFloorRoom01,
    KeepLightsOnAfterHoursInInnerWingLowerFloorRoom02,
    KeepLightsOnAfterHoursInInnerWingLowerFloorRoom03,
    KeepLightsOnAfterHoursInInnerWingLowerFloorRoom04,
    KeepLightsOnAfterHoursInInnerWingLowerFloorRoom05,
    KeepLightsOnAfterHoursInInnerWingLowerFloorRoom06,
    KeepLightsOnAfterHoursInInnerWingLowerFloorRoom07,
    KeepLightsOnAfterHoursInInnerWingLowerFloorRoom08,
    KeepLightsOnAfterHoursInInnerWingLowerFloorRoom09,
    KeepLightsOnAfterHoursInInnerWingLowerFloorRoom10,
    KeepLightsOnAfterHoursInInnerWingLowerFloorRoom11,
    KeepLightsOnAfterHoursInInnerWingLowerFloorRoom12,
    KeepLightsOnAfterHoursInInnerWingLowerFloorRoom13,
    KeepLightsOnAfterHoursInInnerWingLowerFloorRoom14,
    KeepLightsOnAfterHoursInInnerWingLowerFloorRoom15,
    KeepLightsOnAfterHoursInInnerWingLowerFloorRoom16,
}

impl EnumSetType for Setting {
    ghost use Rattle.enumset.specs.Sets.{in_place, lawful_in_integer, lawful_in_place};
    ghost use Rattle.enumset_bench.specs.contracts.settings.Setting.{the_type};

    type Repr = u128;

    ghost elements = { in_place the_type };

    ghost ALL_BITS = { 79228162514264337593543950335 };

    const ALL_BITS: u128 = 0xFFFFFFFFFFFFFFFFFFFFFFFF;

    ghost BIT_WIDTH = { 96 };

    const BIT_WIDTH: u32 = 96;

    ghost VARIANT_COUNT = { 96 };

    const VARIANT_COUNT: u32 = 96;

    fn enum_into_u32(self) -> u32 {
        self as u32
    }

    fn enum_from_u32(val: u32) -> Self {
        match val {
            0 => Self::KeepLightsOnAfterHoursInNorthWingUpperFloorRoom01,
            1 => Self::KeepLightsOnAfterHoursInNorthWingUpperFloorRoom02,
            2 => Self::KeepLightsOnAfterHoursInNorthWingUpperFloorRoom03,
            3 => Self::KeepLightsOnAfterHoursInNorthWingUpperFloorRoom04,
            4 => Self::KeepLightsOnAfterHoursInNorthWingUpperFloorRoom05,
            5 => Self::KeepLightsOnAfterHoursInNorthWingUpperFloorRoom06,
            6 => Self::KeepLightsOnAfterHoursInNorthWingUpperFloorRoom07,
            7 => Self::KeepLightsOnAfterHoursInNorthWingUpperFloorRoom08,
            8 => Self::KeepLightsOnAfterHoursInNorthWingUpperFloorRoom09,
            9 => Self::KeepLightsOnAfterHoursInNorthWingUpperFloorRoom10,
            10 => Self::KeepLightsOnAfterHoursInNorthWingUpperFloorRoom11,
            11 => Self::KeepLightsOnAfterHoursInNorthWingUpperFloorRoom12,
            12 => Self::KeepLightsOnAfterHoursInNorthWingUpperFloorRoom13,
            13 => Self::KeepLightsOnAfterHoursInNorthWingUpperFloorRoom14,
            14 => Self::KeepLightsOnAfterHoursInNorthWingUpperFloorRoom15,
            15 => Self::KeepLightsOnAfterHoursInNorthWingUpperFloorRoom16,
            16 => Self::KeepLightsOnAfterHoursInNorthWingLowerFloorRoom01,
            17 => Self::KeepLightsOnAfterHoursInNorthWingLowerFloorRoom02,
            18 => Self::KeepLightsOnAfterHoursInNorthWingLowerFloorRoom03,
            19 => Self::KeepLightsOnAfterHoursInNorthWingLowerFloorRoom04,
            20 => Self::KeepLightsOnAfterHoursInNorthWingLowerFloorRoom05,
            21 => Self::KeepLightsOnAfterHoursInNorthWingLowerFloorRoom06,
            22 => Self::KeepLightsOnAfterHoursInNorthWingLowerFloorRoom07,
            23 => Self::KeepLightsOnAfterHoursInNorthWingLowerFloorRoom08,
            24 => Self::KeepLightsOnAfterHoursInNorthWingLowerFloorRoom09,
            25 => Self::KeepLightsOnAfterHoursInNorthWingLowerFloorRoom10,
            26 => Self::KeepLightsOnAfterHoursInNorthWingLowerFloorRoom11,
            27 => Self::KeepLightsOnAfterHoursInNorthWingLowerFloorRoom12,
            28 => Self::KeepLightsOnAfterHoursInNorthWingLowerFloorRoom13,
            29 => Self::KeepLightsOnAfterHoursInNorthWingLowerFloorRoom14,
            30 => Self::KeepLightsOnAfterHoursInNorthWingLowerFloorRoom15,
            31 => Self::KeepLightsOnAfterHoursInNorthWingLowerFloorRoom16,
            32 => Self::KeepLightsOnAfterHoursInSouthWingUpperFloorRoom01,
            33 => Self::KeepLightsOnAfterHoursInSouthWingUpperFloorRoom02,
            34 => Self::KeepLightsOnAfterHoursInSouthWingUpperFloorRoom03,
            35 => Self::KeepLightsOnAfterHoursInSouthWingUpperFloorRoom04,
            36 => Self::KeepLightsOnAfterHoursInSouthWingUpperFloorRoom05,
            37 => Self::KeepLightsOnAfterHoursInSouthWingUpperFloorRoom06,
            38 => Self::KeepLightsOnAfterHoursInSouthWingUpperFloorRoom07,
            39 => Self::KeepLightsOnAfterHoursInSouthWingUpperFloorRoom08,
            40 => Self::KeepLightsOnAfterHoursInSouthWingUpperFloorRoom09,
            41 => Self::KeepLightsOnAfterHoursInSouthWingUpperFloorRoom10,
            42 => Self::KeepLightsOnAfterHoursInSouthWingUpperFloorRoom11,
            43 => Self::KeepLightsOnAfterHoursInSouthWingUpperFloorRoom12,
            44 => Self::KeepLightsOnAfterHoursInSouthWingUpperFloorRoom13,
            45 => Self::KeepLightsOnAfterHoursInSouthWingUpperFloorRoom14,
            46 => Self::KeepLightsOnAfterHoursInSouthWingUpperFloorRoom15,
            47 => Self::KeepLightsOnAfterHoursInSouthWingUpperFloorRoom16,
            48 => Self::KeepLightsOnAfterHoursInSouthWingLowerFloorRoom01,
            49 => Self::KeepLightsOnAfterHoursInSouthWingLowerFloorRoom02,
            50 => Self::KeepLightsOnAfterHoursInSouthWingLowerFloorRoom03,
            51 => Self::KeepLightsOnAfterHoursInSouthWingLowerFloorRoom04,
            52 => Self::KeepLightsOnAfterHoursInSouthWingLowerFloorRoom05,
            53 => Self::KeepLightsOnAfterHoursInSouthWingLowerFloorRoom06,
            54 => Self::KeepLightsOnAfterHoursInSouthWingLowerFloorRoom07,
            55 => Self::KeepLightsOnAfterHoursInSouthWingLowerFloorRoom08,
            56 => Self::KeepLightsOnAfterHoursInSouthWingLowerFloorRoom09,
            57 => Self::KeepLightsOnAfterHoursInSouthWingLowerFloorRoom10,
            58 => Self::KeepLightsOnAfterHoursInSouthWingLowerFloorRoom11,
            59 => Self::KeepLightsOnAfterHoursInSouthWingLowerFloorRoom12,
            60 => Self::KeepLightsOnAfterHoursInSouthWingLowerFloorRoom13,
            61 => Self::KeepLightsOnAfterHoursInSouthWingLowerFloorRoom14,
            62 => Self::KeepLightsOnAfterHoursInSouthWingLowerFloorRoom15,
            63 => Self::KeepLightsOnAfterHoursInSouthWingLowerFloorRoom16,
            64 => Self::KeepLightsOnAfterHoursInInnerWingUpperFloorRoom01,
            65 => Self::KeepLightsOnAfterHoursInInnerWingUpperFloorRoom02,
            66 => Self::KeepLightsOnAfterHoursInInnerWingUpperFloorRoom03,
            67 => Self::KeepLightsOnAfterHoursInInnerWingUpperFloorRoom04,
            68 => Self::KeepLightsOnAfterHoursInInnerWingUpperFloorRoom05,
            69 => Self::KeepLightsOnAfterHoursInInnerWingUpperFloorRoom06,
            70 => Self::KeepLightsOnAfterHoursInInnerWingUpperFloorRoom07,
            71 => Self::KeepLightsOnAfterHoursInInnerWingUpperFloorRoom08,
            72 => Self::KeepLightsOnAfterHoursInInnerWingUpperFloorRoom09,
            73 => Self::KeepLightsOnAfterHoursInInnerWingUpperFloorRoom10,
            74 => Self::KeepLightsOnAfterHoursInInnerWingUpperFloorRoom11,
            75 => Self::KeepLightsOnAfterHoursInInnerWingUpperFloorRoom12,
            76 => Self::KeepLightsOnAfterHoursInInnerWingUpperFloorRoom13,
            77 => Self::KeepLightsOnAfterHoursInInnerWingUpperFloorRoom14,
            78 => Self::KeepLightsOnAfterHoursInInnerWingUpperFloorRoom15,
            79 => Self::KeepLightsOnAfterHoursInInnerWingUpperFloorRoom16,
            80 => Self::KeepLightsOnAfterHoursInInnerWingLowerFloorRoom01,
            81 => Self::KeepLightsOnAfterHoursInInnerWingLowerFloorRoom02,
            82 => Self::KeepLightsOnAfterHoursInInnerWingLowerFloorRoom03,
            83 => Self::KeepLightsOnAfterHoursInInnerWingLowerFloorRoom04,
            84 => Self::KeepLightsOnAfterHoursInInnerWingLowerFloorRoom05,
            85 => Self::KeepLightsOnAfterHoursInInnerWingLowerFloorRoom06,
            86 => Self::KeepLightsOnAfterHoursInInnerWingLowerFloorRoom07,
            87 => Self::KeepLightsOnAfterHoursInInnerWingLowerFloorRoom08,
            88 => Self::KeepLightsOnAfterHoursInInnerWingLowerFloorRoom09,
            89 => Self::KeepLightsOnAfterHoursInInnerWingLowerFloorRoom10,
            90 => Self::KeepLightsOnAfterHoursInInnerWingLowerFloorRoom11,
            91 => Self::KeepLightsOnAfterHoursInInnerWingLowerFloorRoom12,
            92 => Self::KeepLightsOnAfterHoursInInnerWingLowerFloorRoom13,
            93 => Self::KeepLightsOnAfterHoursInInnerWingLowerFloorRoom14,
            94 => Self::KeepLightsOnAfterHoursInInnerWingLowerFloorRoom15,
            95 => Self::KeepLightsOnAfterHoursInInnerWingLowerFloorRoom16,
            _ => {
                enumset::variants::is_below(val, 96);
                unreachable!()
            }
        }
    }

    ghost lawful = { lawful_in_place the_type (lawful_in_integer the_type _ tt) };
}

impl EnumSetTypeWithRepr for Setting {
    ghost use Rattle.std.proofs.Common.{rules};

    ghost narrow = { Prim.search rules };
}

#[tactic(auto, unfolding(enumset::specs::Sets::place))]
impl EnumSetNames for Setting {
    ghost use Rattle.std.specs.Prelude.{codes, ◌∷◌, []};

    ghost names = { codes "KeepLightsOnAfterHoursInNorthWingUpperFloorRoom01" ∷
        codes "KeepLightsOnAfterHoursInNorthWingUpperFloorRoom02" ∷
        codes "KeepLightsOnAfterHoursInNorthWingUpperFloorRoom03" ∷
        codes "KeepLightsOnAfterHoursInNorthWingUpperFloorRoom04" ∷
        codes "KeepLightsOnAfterHoursInNorthWingUpperFloorRoom05" ∷
        codes "KeepLightsOnAfterHoursInNorthWingUpperFloorRoom06" ∷
        codes "KeepLightsOnAfterHoursInNorthWingUpperFloorRoom07" ∷
        codes "KeepLightsOnAfterHoursInNorthWingUpperFloorRoom08" ∷
        codes "KeepLightsOnAfterHoursInNorthWingUpperFloorRoom09" ∷
        codes "KeepLightsOnAfterHoursInNorthWingUpperFloorRoom10" ∷
        codes "KeepLightsOnAfterHoursInNorthWingUpperFloorRoom11" ∷
        codes "KeepLightsOnAfterHoursInNorthWingUpperFloorRoom12" ∷
        codes "KeepLightsOnAfterHoursInNorthWingUpperFloorRoom13" ∷
        codes "KeepLightsOnAfterHoursInNorthWingUpperFloorRoom14" ∷
        codes "KeepLightsOnAfterHoursInNorthWingUpperFloorRoom15" ∷
        codes "KeepLightsOnAfterHoursInNorthWingUpperFloorRoom16" ∷
        codes "KeepLightsOnAfterHoursInNorthWingLowerFloorRoom01" ∷
        codes "KeepLightsOnAfterHoursInNorthWingLowerFloorRoom02" ∷
        codes "KeepLightsOnAfterHoursInNorthWingLowerFloorRoom03" ∷
        codes "KeepLightsOnAfterHoursInNorthWingLowerFloorRoom04" ∷
        codes "KeepLightsOnAfterHoursInNorthWingLowerFloorRoom05" ∷
        codes "KeepLightsOnAfterHoursInNorthWingLowerFloorRoom06" ∷
        codes "KeepLightsOnAfterHoursInNorthWingLowerFloorRoom07" ∷
        codes "KeepLightsOnAfterHoursInNorthWingLowerFloorRoom08" ∷
        codes "KeepLightsOnAfterHoursInNorthWingLowerFloorRoom09" ∷
        codes "KeepLightsOnAfterHoursInNorthWingLowerFloorRoom10" ∷
        codes "KeepLightsOnAfterHoursInNorthWingLowerFloorRoom11" ∷
        codes "KeepLightsOnAfterHoursInNorthWingLowerFloorRoom12" ∷
        codes "KeepLightsOnAfterHoursInNorthWingLowerFloorRoom13" ∷
        codes "KeepLightsOnAfterHoursInNorthWingLowerFloorRoom14" ∷
        codes "KeepLightsOnAfterHoursInNorthWingLowerFloorRoom15" ∷
        codes "KeepLightsOnAfterHoursInNorthWingLowerFloorRoom16" ∷
        codes "KeepLightsOnAfterHoursInSouthWingUpperFloorRoom01" ∷
        codes "KeepLightsOnAfterHoursInSouthWingUpperFloorRoom02" ∷
        codes "KeepLightsOnAfterHoursInSouthWingUpperFloorRoom03" ∷
        codes "KeepLightsOnAfterHoursInSouthWingUpperFloorRoom04" ∷
        codes "KeepLightsOnAfterHoursInSouthWingUpperFloorRoom05" ∷
        codes "KeepLightsOnAfterHoursInSouthWingUpperFloorRoom06" ∷
        codes "KeepLightsOnAfterHoursInSouthWingUpperFloorRoom07" ∷
        codes "KeepLightsOnAfterHoursInSouthWingUpperFloorRoom08" ∷
        codes "KeepLightsOnAfterHoursInSouthWingUpperFloorRoom09" ∷
        codes "KeepLightsOnAfterHoursInSouthWingUpperFloorRoom10" ∷
        codes "KeepLightsOnAfterHoursInSouthWingUpperFloorRoom11" ∷
        codes "KeepLightsOnAfterHoursInSouthWingUpperFloorRoom12" ∷
        codes "KeepLightsOnAfterHoursInSouthWingUpperFloorRoom13" ∷
        codes "KeepLightsOnAfterHoursInSouthWingUpperFloorRoom14" ∷
        codes "KeepLightsOnAfterHoursInSouthWingUpperFloorRoom15" ∷
        codes "KeepLightsOnAfterHoursInSouthWingUpperFloorRoom16" ∷
        codes "KeepLightsOnAfterHoursInSouthWingLowerFloorRoom01" ∷
        codes "KeepLightsOnAfterHoursInSouthWingLowerFloorRoom02" ∷
        codes "KeepLightsOnAfterHoursInSouthWingLowerFloorRoom03" ∷
        codes "KeepLightsOnAfterHoursInSouthWingLowerFloorRoom04" ∷
        codes "KeepLightsOnAfterHoursInSouthWingLowerFloorRoom05" ∷
        codes "KeepLightsOnAfterHoursInSouthWingLowerFloorRoom06" ∷
        codes "KeepLightsOnAfterHoursInSouthWingLowerFloorRoom07" ∷
        codes "KeepLightsOnAfterHoursInSouthWingLowerFloorRoom08" ∷
        codes "KeepLightsOnAfterHoursInSouthWingLowerFloorRoom09" ∷
        codes "KeepLightsOnAfterHoursInSouthWingLowerFloorRoom10" ∷
        codes "KeepLightsOnAfterHoursInSouthWingLowerFloorRoom11" ∷
        codes "KeepLightsOnAfterHoursInSouthWingLowerFloorRoom12" ∷
        codes "KeepLightsOnAfterHoursInSouthWingLowerFloorRoom13" ∷
        codes "KeepLightsOnAfterHoursInSouthWingLowerFloorRoom14" ∷
        codes "KeepLightsOnAfterHoursInSouthWingLowerFloorRoom15" ∷
        codes "KeepLightsOnAfterHoursInSouthWingLowerFloorRoom16" ∷
        codes "KeepLightsOnAfterHoursInInnerWingUpperFloorRoom01" ∷
        codes "KeepLightsOnAfterHoursInInnerWingUpperFloorRoom02" ∷
        codes "KeepLightsOnAfterHoursInInnerWingUpperFloorRoom03" ∷
        codes "KeepLightsOnAfterHoursInInnerWingUpperFloorRoom04" ∷
        codes "KeepLightsOnAfterHoursInInnerWingUpperFloorRoom05" ∷
        codes "KeepLightsOnAfterHoursInInnerWingUpperFloorRoom06" ∷
        codes "KeepLightsOnAfterHoursInInnerWingUpperFloorRoom07" ∷
        codes "KeepLightsOnAfterHoursInInnerWingUpperFloorRoom08" ∷
        codes "KeepLightsOnAfterHoursInInnerWingUpperFloorRoom09" ∷
        codes "KeepLightsOnAfterHoursInInnerWingUpperFloorRoom10" ∷
        codes "KeepLightsOnAfterHoursInInnerWingUpperFloorRoom11" ∷
        codes "KeepLightsOnAfterHoursInInnerWingUpperFloorRoom12" ∷
        codes "KeepLightsOnAfterHoursInInnerWingUpperFloorRoom13" ∷
        codes "KeepLightsOnAfterHoursInInnerWingUpperFloorRoom14" ∷
        codes "KeepLightsOnAfterHoursInInnerWingUpperFloorRoom15" ∷
        codes "KeepLightsOnAfterHoursInInnerWingUpperFloorRoom16" ∷
        codes "KeepLightsOnAfterHoursInInnerWingLowerFloorRoom01" ∷
        codes "KeepLightsOnAfterHoursInInnerWingLowerFloorRoom02" ∷
        codes "KeepLightsOnAfterHoursInInnerWingLowerFloorRoom03" ∷
        codes "KeepLightsOnAfterHoursInInnerWingLowerFloorRoom04" ∷
        codes "KeepLightsOnAfterHoursInInnerWingLowerFloorRoom05" ∷
        codes "KeepLightsOnAfterHoursInInnerWingLowerFloorRoom06" ∷
        codes "KeepLightsOnAfterHoursInInnerWingLowerFloorRoom07" ∷
        codes "KeepLightsOnAfterHoursInInnerWingLowerFloorRoom08" ∷
        codes "KeepLightsOnAfterHoursInInnerWingLowerFloorRoom09" ∷
        codes "KeepLightsOnAfterHoursInInnerWingLowerFloorRoom10" ∷
        codes "KeepLightsOnAfterHoursInInnerWingLowerFloorRoom11" ∷
        codes "KeepLightsOnAfterHoursInInnerWingLowerFloorRoom12" ∷
        codes "KeepLightsOnAfterHoursInInnerWingLowerFloorRoom13" ∷
        codes "KeepLightsOnAfterHoursInInnerWingLowerFloorRoom14" ∷
        codes "KeepLightsOnAfterHoursInInnerWingLowerFloorRoom15" ∷
        codes "KeepLightsOnAfterHoursInInnerWingLowerFloorRoom16" ∷ [] };

    fn names() -> &'static [(Self, &'static str)] {
        names_of!(
            Setting: KeepLightsOnAfterHoursInNorthWingUpperFloorRoom01
            KeepLightsOnAfterHoursInNorthWingUpperFloorRoom02
            KeepLightsOnAfterHoursInNorthWingUpperFloorRoom03
            KeepLightsOnAfterHoursInNorthWingUpperFloorRoom04
            KeepLightsOnAfterHoursInNorthWingUpperFloorRoom05
            KeepLightsOnAfterHoursInNorthWingUpperFloorRoom06
            KeepLightsOnAfterHoursInNorthWingUpperFloorRoom07
            KeepLightsOnAfterHoursInNorthWingUpperFloorRoom08
            KeepLightsOnAfterHoursInNorthWingUpperFloorRoom09
            KeepLightsOnAfterHoursInNorthWingUpperFloorRoom10
            KeepLightsOnAfterHoursInNorthWingUpperFloorRoom11
            KeepLightsOnAfterHoursInNorthWingUpperFloorRoom12
            KeepLightsOnAfterHoursInNorthWingUpperFloorRoom13
            KeepLightsOnAfterHoursInNorthWingUpperFloorRoom14
            KeepLightsOnAfterHoursInNorthWingUpperFloorRoom15
            KeepLightsOnAfterHoursInNorthWingUpperFloorRoom16
            KeepLightsOnAfterHoursInNorthWingLowerFloorRoom01
            KeepLightsOnAfterHoursInNorthWingLowerFloorRoom02
            KeepLightsOnAfterHoursInNorthWingLowerFloorRoom03
            KeepLightsOnAfterHoursInNorthWingLowerFloorRoom04
            KeepLightsOnAfterHoursInNorthWingLowerFloorRoom05
            KeepLightsOnAfterHoursInNorthWingLowerFloorRoom06
            KeepLightsOnAfterHoursInNorthWingLowerFloorRoom07
            KeepLightsOnAfterHoursInNorthWingLowerFloorRoom08
            KeepLightsOnAfterHoursInNorthWingLowerFloorRoom09
            KeepLightsOnAfterHoursInNorthWingLowerFloorRoom10
            KeepLightsOnAfterHoursInNorthWingLowerFloorRoom11
            KeepLightsOnAfterHoursInNorthWingLowerFloorRoom12
            KeepLightsOnAfterHoursInNorthWingLowerFloorRoom13
            KeepLightsOnAfterHoursInNorthWingLowerFloorRoom14
            KeepLightsOnAfterHoursInNorthWingLowerFloorRoom15
            KeepLightsOnAfterHoursInNorthWingLowerFloorRoom16
            KeepLightsOnAfterHoursInSouthWingUpperFloorRoom01
            KeepLightsOnAfterHoursInSouthWingUpperFloorRoom02
            KeepLightsOnAfterHoursInSouthWingUpperFloorRoom03
            KeepLightsOnAfterHoursInSouthWingUpperFloorRoom04
            KeepLightsOnAfterHoursInSouthWingUpperFloorRoom05
            KeepLightsOnAfterHoursInSouthWingUpperFloorRoom06
            KeepLightsOnAfterHoursInSouthWingUpperFloorRoom07
            KeepLightsOnAfterHoursInSouthWingUpperFloorRoom08
            KeepLightsOnAfterHoursInSouthWingUpperFloorRoom09
            KeepLightsOnAfterHoursInSouthWingUpperFloorRoom10
            KeepLightsOnAfterHoursInSouthWingUpperFloorRoom11
            KeepLightsOnAfterHoursInSouthWingUpperFloorRoom12
            KeepLightsOnAfterHoursInSouthWingUpperFloorRoom13
            KeepLightsOnAfterHoursInSouthWingUpperFloorRoom14
            KeepLightsOnAfterHoursInSouthWingUpperFloorRoom15
            KeepLightsOnAfterHoursInSouthWingUpperFloorRoom16
            KeepLightsOnAfterHoursInSouthWingLowerFloorRoom01
            KeepLightsOnAfterHoursInSouthWingLowerFloorRoom02
            KeepLightsOnAfterHoursInSouthWingLowerFloorRoom03
            KeepLightsOnAfterHoursInSouthWingLowerFloorRoom04
            KeepLightsOnAfterHoursInSouthWingLowerFloorRoom05
            KeepLightsOnAfterHoursInSouthWingLowerFloorRoom06
            KeepLightsOnAfterHoursInSouthWingLowerFloorRoom07
            KeepLightsOnAfterHoursInSouthWingLowerFloorRoom08
            KeepLightsOnAfterHoursInSouthWingLowerFloorRoom09
            KeepLightsOnAfterHoursInSouthWingLowerFloorRoom10
            KeepLightsOnAfterHoursInSouthWingLowerFloorRoom11
            KeepLightsOnAfterHoursInSouthWingLowerFloorRoom12
            KeepLightsOnAfterHoursInSouthWingLowerFloorRoom13
            KeepLightsOnAfterHoursInSouthWingLowerFloorRoom14
            KeepLightsOnAfterHoursInSouthWingLowerFloorRoom15
            KeepLightsOnAfterHoursInSouthWingLowerFloorRoom16
            KeepLightsOnAfterHoursInInnerWingUpperFloorRoom01
            KeepLightsOnAfterHoursInInnerWingUpperFloorRoom02
            KeepLightsOnAfterHoursInInnerWingUpperFloorRoom03
            KeepLightsOnAfterHoursInInnerWingUpperFloorRoom04
            KeepLightsOnAfterHoursInInnerWingUpperFloorRoom05
            KeepLightsOnAfterHoursInInnerWingUpperFloorRoom06
            KeepLightsOnAfterHoursInInnerWingUpperFloorRoom07
            KeepLightsOnAfterHoursInInnerWingUpperFloorRoom08
            KeepLightsOnAfterHoursInInnerWingUpperFloorRoom09
            KeepLightsOnAfterHoursInInnerWingUpperFloorRoom10
            KeepLightsOnAfterHoursInInnerWingUpperFloorRoom11
            KeepLightsOnAfterHoursInInnerWingUpperFloorRoom12
            KeepLightsOnAfterHoursInInnerWingUpperFloorRoom13
            KeepLightsOnAfterHoursInInnerWingUpperFloorRoom14
            KeepLightsOnAfterHoursInInnerWingUpperFloorRoom15
            KeepLightsOnAfterHoursInInnerWingUpperFloorRoom16
            KeepLightsOnAfterHoursInInnerWingLowerFloorRoom01
            KeepLightsOnAfterHoursInInnerWingLowerFloorRoom02
            KeepLightsOnAfterHoursInInnerWingLowerFloorRoom03
            KeepLightsOnAfterHoursInInnerWingLowerFloorRoom04
            KeepLightsOnAfterHoursInInnerWingLowerFloorRoom05
            KeepLightsOnAfterHoursInInnerWingLowerFloorRoom06
            KeepLightsOnAfterHoursInInnerWingLowerFloorRoom07
            KeepLightsOnAfterHoursInInnerWingLowerFloorRoom08
            KeepLightsOnAfterHoursInInnerWingLowerFloorRoom09
            KeepLightsOnAfterHoursInInnerWingLowerFloorRoom10
            KeepLightsOnAfterHoursInInnerWingLowerFloorRoom11
            KeepLightsOnAfterHoursInInnerWingLowerFloorRoom12
            KeepLightsOnAfterHoursInInnerWingLowerFloorRoom13
            KeepLightsOnAfterHoursInInnerWingLowerFloorRoom14
            KeepLightsOnAfterHoursInInnerWingLowerFloorRoom15
            KeepLightsOnAfterHoursInInnerWingLowerFloorRoom16
        )
    }

    ghost named = { tt };
}

impl Setting {
    ghost use Rattle.std.specs.Prelude.{◌≡◌, IfOk, IfErr, Some, string_bytes};
    ghost use Rattle.serde_json.specs.Written.{compact_text};
    ghost use Rattle.serde_json.specs.Read.{read};
    ghost use Rattle.serde_json.specs.View.{view};
    ghost use Rattle.enumset.specs.Names.{names_of};
    ghost use Rattle.enumset.specs.JsonNames.{map_value, set_of_map};
    ghost use Rattle.enumset.specs.JsonPlain.{IsPlainMap};
    ghost use Rattle.enumset.specs.JsonReads.{value_read, IsResult, IsReadOf};
    ghost use Rattle.enumset.specs.declared.set_json.fault.JsonFault.TheVariants.{OutOfMemory};
    ghost use Rattle.enumset.specs.declared.set_json.unknown.Unknown.TheVariants as unknown;

    /// The object that maps the name of each of the set's members to `true`. The only fault is
    /// [`set_json::JsonFault::OutOfMemory`].
    pub fn to_json(
        alloc: std::alloc::Global,
        set: &EnumSet<Self>,
    ) -> std::result::Result<serde_json::Value, set_json::JsonFault>
        ensures value { IfOk result (λ value. view value ≡ map_value
            (names_of ⟦<Setting as EnumSetType>⟧.elements ⟦<Setting as EnumSetNames>⟧.names) set.now) }
        ensures fault { IfErr result (λ fault. fault ≡ OutOfMemory) }
    {
        set_json::to_map(alloc, set)
    }

    /// The set that `to_json` writes as this value. Names that no variant has are left out.
    ///
    /// The faults are those of [`set_json::from_map`], in the same order. It does not allocate.
    pub fn from_json(
        value: &serde_json::Value,
    ) -> std::result::Result<EnumSet<Self>, set_json::JsonFault>
        ensures { result ≡ set_of_map
            (names_of ⟦<Setting as EnumSetType>⟧.elements ⟦<Setting as EnumSetNames>⟧.names)
            unknown.Drop (view value.now) }
    {
        set_json::from_map(value, set_json::Unknown::Drop)
    }

    /// The string of `to_json`'s value, without spaces. The only fault is
    /// [`set_json::JsonFault::OutOfMemory`].
    pub fn to_json_text(
        alloc: std::alloc::Global,
        set: &EnumSet<Self>,
    ) -> std::result::Result<std::string::String, set_json::JsonFault>
        ensures text { IfOk result (λ text. string_bytes text
            ≡ compact_text (map_value
            (names_of ⟦<Setting as EnumSetType>⟧.elements ⟦<Setting as EnumSetNames>⟧.names) set.now)) }
        ensures reads { IfOk result (λ text. read (string_bytes text)
            ≡ Some (map_value
            (names_of ⟦<Setting as EnumSetType>⟧.elements ⟦<Setting as EnumSetNames>⟧.names) set.now)) }
        ensures fault { IfErr result (λ fault. fault ≡ OutOfMemory) }
    {
        set_json::to_map_text(alloc, set)
    }

    /// What `from_json` returns of the value that this string is read as. Names that no variant has are left out.
    ///
    /// The faults are those of [`set_json::from_map_text`].
    pub fn from_json_text(
        alloc: std::alloc::Global,
        text: &str,
    ) -> std::result::Result<EnumSet<Self>, set_json::JsonFault>
        ensures read { IsReadOf (set_of_map
            (names_of ⟦<Setting as EnumSetType>⟧.elements ⟦<Setting as EnumSetNames>⟧.names)
            unknown.Drop) text.now result }
        ensures plain { IsPlainMap
            (names_of ⟦<Setting as EnumSetType>⟧.elements ⟦<Setting as EnumSetNames>⟧.names) text.now →
            IsResult (value_read (set_of_map
            (names_of ⟦<Setting as EnumSetType>⟧.elements ⟦<Setting as EnumSetNames>⟧.names)
            unknown.Drop) text.now) result }
    {
        set_json::from_map_text(alloc, text, set_json::Unknown::Drop)
    }
}
