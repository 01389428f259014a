// Written by enumset_derive types_for_tests of_256 from Of256: change the source, and write this again.

//! An enum of 256 variants over four words.

use enumset::internal::ArrayRepr;
use enumset::{EnumSet, EnumSetNames, EnumSetType, names_of, set_json};

/// A variant for each bit of four words. An enum may have no more variants than these 256.
#[derive(Clone, Copy, PartialEq, Eq)]
pub enum Of256 {
    V0,
    V1,
    V2,
    V3,
    V4,
    V5,
    V6,
    V7,
    V8,
    V9,
    V10,
    V11,
    V12,
    V13,
    V14,
    V15,
    V16,
    V17,
    V18,
    V19,
    V20,
    V21,
    V22,
    V23,
    V24,
    V25,
    V26,
    V27,
    V28,
    V29,
    V30,
    V31,
    V32,
    V33,
    V34,
    V35,
    V36,
    V37,
    V38,
    V39,
    V40,
    V41,
    V42,
    V43,
    V44,
    V45,
    V46,
    V47,
    V48,
    V49,
    V50,
    V51,
    V52,
    V53,
    V54,
    V55,
    V56,
    V57,
    V58,
    V59,
    V60,
    V61,
    V62,
    V63,
    V64,
    V65,
    V66,
    V67,
    V68,
    V69,
    V70,
    V71,
    V72,
    V73,
    V74,
    V75,
    V76,
    V77,
    V78,
    V79,
    V80,
    V81,
    V82,
    V83,
    V84,
    V85,
    V86,
    V87,
    V88,
    V89,
    V90,
    V91,
    V92,
    V93,
    V94,
    V95,
    V96,
    V97,
    V98,
    V99,
    V100,
    V101,
    V102,
    V103,
    V104,
    V105,
    V106,
    V107,
    V108,
    V109,
    V110,
    V111,
    V112,
    V113,
    V114,
    V115,
    V116,
    V117,
    V118,
    V119,
    V120,
    V121,
    V122,
    V123,
    V124,
    V125,
    V126,
    V127,
    V128,
    V129,
    V130,
    V131,
    V132,
    V133,
    V134,
    V135,
    V136,
    V137,
    V138,
    V139,
    V140,
    V141,
    V142,
    V143,
    V144,
    V145,
    V146,
    V147,
    V148,
    V149,
    V150,
    V151,
    V152,
    V153,
    V154,
    V155,
    V156,
    V157,
    V158,
    V159,
    V160,
    V161,
    V162,
    V163,
    V164,
    V165,
    V166,
    V167,
    V168,
    V169,
    V170,
    V171,
    V172,
    V173,
    V174,
    V175,
    V176,
    V177,
    V178,
    V179,
    V180,
    V181,
    V182,
    V183,
    V184,
    V185,
    V186,
    V187,
    V188,
    V189,
    V190,
    V191,
    V192,
    V193,
    V194,
    V195,
    V196,
    V197,
    V198,
    V199,
    V200,
    V201,
    V202,
    V203,
    V204,
    V205,
    V206,
    V207,
    V208,
    V209,
    V210,
    V211,
    V212,
    V213,
    V214,
    V215,
    V216,
    V217,
    V218,
    V219,
    V220,
    V221,
    V222,
    V223,
    V224,
    V225,
    V226,
    V227,
    V228,
    V229,
    V230,
    V231,
    V232,
    V233,
    V234,
    V235,
    V236,
    V237,
    V238,
    V239,
    V240,
    V241,
    V242,
    V243,
    V244,
    V245,
    V246,
    V247,
    V248,
    V249,
    V250,
    V251,
    V252,
    V253,
    V254,
    V255,
}

impl EnumSetType for Of256 {
    ghost use Rattle.std.specs.Prelude.{◌∷◌, []};
    ghost use Rattle.enumset.specs.Sets.{in_place, lawful_in_words, lawful_in_place};
    ghost use Rattle.types_for_tests.specs.contracts.of_256.Of256.{the_type};

    type Repr = ArrayRepr<4>;

    ghost elements = { in_place the_type };

    ghost ALL_BITS = { 18446744073709551615 ∷ 18446744073709551615 ∷ 18446744073709551615 ∷
        18446744073709551615 ∷ [] };

    const ALL_BITS: ArrayRepr<4> = ArrayRepr([
        0xFFFFFFFFFFFFFFFF,
        0xFFFFFFFFFFFFFFFF,
        0xFFFFFFFFFFFFFFFF,
        0xFFFFFFFFFFFFFFFF,
    ]);

    ghost BIT_WIDTH = { 256 };

    const BIT_WIDTH: u32 = 256;

    ghost VARIANT_COUNT = { 256 };

    const VARIANT_COUNT: u32 = 256;

    fn enum_into_u32(self) -> u32 {
        self as u32
    }

    fn enum_from_u32(val: u32) -> Self {
        match val {
            0 => Self::V0,
            1 => Self::V1,
            2 => Self::V2,
            3 => Self::V3,
            4 => Self::V4,
            5 => Self::V5,
            6 => Self::V6,
            7 => Self::V7,
            8 => Self::V8,
            9 => Self::V9,
            10 => Self::V10,
            11 => Self::V11,
            12 => Self::V12,
            13 => Self::V13,
            14 => Self::V14,
            15 => Self::V15,
            16 => Self::V16,
            17 => Self::V17,
            18 => Self::V18,
            19 => Self::V19,
            20 => Self::V20,
            21 => Self::V21,
            22 => Self::V22,
            23 => Self::V23,
            24 => Self::V24,
            25 => Self::V25,
            26 => Self::V26,
            27 => Self::V27,
            28 => Self::V28,
            29 => Self::V29,
            30 => Self::V30,
            31 => Self::V31,
            32 => Self::V32,
            33 => Self::V33,
            34 => Self::V34,
            35 => Self::V35,
            36 => Self::V36,
            37 => Self::V37,
            38 => Self::V38,
            39 => Self::V39,
            40 => Self::V40,
            41 => Self::V41,
            42 => Self::V42,
            43 => Self::V43,
            44 => Self::V44,
            45 => Self::V45,
            46 => Self::V46,
            47 => Self::V47,
            48 => Self::V48,
            49 => Self::V49,
            50 => Self::V50,
            51 => Self::V51,
            52 => Self::V52,
            53 => Self::V53,
            54 => Self::V54,
            55 => Self::V55,
            56 => Self::V56,
            57 => Self::V57,
            58 => Self::V58,
            59 => Self::V59,
            60 => Self::V60,
            61 => Self::V61,
            62 => Self::V62,
            63 => Self::V63,
            64 => Self::V64,
            65 => Self::V65,
            66 => Self::V66,
            67 => Self::V67,
            68 => Self::V68,
            69 => Self::V69,
            70 => Self::V70,
            71 => Self::V71,
            72 => Self::V72,
            73 => Self::V73,
            74 => Self::V74,
            75 => Self::V75,
            76 => Self::V76,
            77 => Self::V77,
            78 => Self::V78,
            79 => Self::V79,
            80 => Self::V80,
            81 => Self::V81,
            82 => Self::V82,
            83 => Self::V83,
            84 => Self::V84,
            85 => Self::V85,
            86 => Self::V86,
            87 => Self::V87,
            88 => Self::V88,
            89 => Self::V89,
            90 => Self::V90,
            91 => Self::V91,
            92 => Self::V92,
            93 => Self::V93,
            94 => Self::V94,
            95 => Self::V95,
            96 => Self::V96,
            97 => Self::V97,
            98 => Self::V98,
            99 => Self::V99,
            100 => Self::V100,
            101 => Self::V101,
            102 => Self::V102,
            103 => Self::V103,
            104 => Self::V104,
            105 => Self::V105,
            106 => Self::V106,
            107 => Self::V107,
            108 => Self::V108,
            109 => Self::V109,
            110 => Self::V110,
            111 => Self::V111,
            112 => Self::V112,
            113 => Self::V113,
            114 => Self::V114,
            115 => Self::V115,
            116 => Self::V116,
            117 => Self::V117,
            118 => Self::V118,
            119 => Self::V119,
            120 => Self::V120,
            121 => Self::V121,
            122 => Self::V122,
            123 => Self::V123,
            124 => Self::V124,
            125 => Self::V125,
            126 => Self::V126,
            127 => Self::V127,
            128 => Self::V128,
            129 => Self::V129,
            130 => Self::V130,
            131 => Self::V131,
            132 => Self::V132,
            133 => Self::V133,
            134 => Self::V134,
            135 => Self::V135,
            136 => Self::V136,
            137 => Self::V137,
            138 => Self::V138,
            139 => Self::V139,
            140 => Self::V140,
            141 => Self::V141,
            142 => Self::V142,
            143 => Self::V143,
            144 => Self::V144,
            145 => Self::V145,
            146 => Self::V146,
            147 => Self::V147,
            148 => Self::V148,
            149 => Self::V149,
            150 => Self::V150,
            151 => Self::V151,
            152 => Self::V152,
            153 => Self::V153,
            154 => Self::V154,
            155 => Self::V155,
            156 => Self::V156,
            157 => Self::V157,
            158 => Self::V158,
            159 => Self::V159,
            160 => Self::V160,
            161 => Self::V161,
            162 => Self::V162,
            163 => Self::V163,
            164 => Self::V164,
            165 => Self::V165,
            166 => Self::V166,
            167 => Self::V167,
            168 => Self::V168,
            169 => Self::V169,
            170 => Self::V170,
            171 => Self::V171,
            172 => Self::V172,
            173 => Self::V173,
            174 => Self::V174,
            175 => Self::V175,
            176 => Self::V176,
            177 => Self::V177,
            178 => Self::V178,
            179 => Self::V179,
            180 => Self::V180,
            181 => Self::V181,
            182 => Self::V182,
            183 => Self::V183,
            184 => Self::V184,
            185 => Self::V185,
            186 => Self::V186,
            187 => Self::V187,
            188 => Self::V188,
            189 => Self::V189,
            190 => Self::V190,
            191 => Self::V191,
            192 => Self::V192,
            193 => Self::V193,
            194 => Self::V194,
            195 => Self::V195,
            196 => Self::V196,
            197 => Self::V197,
            198 => Self::V198,
            199 => Self::V199,
            200 => Self::V200,
            201 => Self::V201,
            202 => Self::V202,
            203 => Self::V203,
            204 => Self::V204,
            205 => Self::V205,
            206 => Self::V206,
            207 => Self::V207,
            208 => Self::V208,
            209 => Self::V209,
            210 => Self::V210,
            211 => Self::V211,
            212 => Self::V212,
            213 => Self::V213,
            214 => Self::V214,
            215 => Self::V215,
            216 => Self::V216,
            217 => Self::V217,
            218 => Self::V218,
            219 => Self::V219,
            220 => Self::V220,
            221 => Self::V221,
            222 => Self::V222,
            223 => Self::V223,
            224 => Self::V224,
            225 => Self::V225,
            226 => Self::V226,
            227 => Self::V227,
            228 => Self::V228,
            229 => Self::V229,
            230 => Self::V230,
            231 => Self::V231,
            232 => Self::V232,
            233 => Self::V233,
            234 => Self::V234,
            235 => Self::V235,
            236 => Self::V236,
            237 => Self::V237,
            238 => Self::V238,
            239 => Self::V239,
            240 => Self::V240,
            241 => Self::V241,
            242 => Self::V242,
            243 => Self::V243,
            244 => Self::V244,
            245 => Self::V245,
            246 => Self::V246,
            247 => Self::V247,
            248 => Self::V248,
            249 => Self::V249,
            250 => Self::V250,
            251 => Self::V251,
            252 => Self::V252,
            253 => Self::V253,
            254 => Self::V254,
            255 => Self::V255,
            _ => {
                enumset::variants::is_below(val, 256);
                unreachable!()
            }
        }
    }

    ghost lawful = { lawful_in_place the_type (lawful_in_words the_type _ tt) };
}

#[tactic(auto, unfolding(enumset::specs::Sets::place))]
impl EnumSetNames for Of256 {
    ghost use Rattle.std.specs.Prelude.{codes, ◌∷◌, []};

    ghost names = { codes "V0" ∷ codes "V1" ∷ codes "V2" ∷ codes "V3" ∷ codes "V4" ∷
        codes "V5" ∷ codes "V6" ∷ codes "V7" ∷ codes "V8" ∷ codes "V9" ∷ codes "V10" ∷
        codes "V11" ∷ codes "V12" ∷ codes "V13" ∷ codes "V14" ∷ codes "V15" ∷
        codes "V16" ∷ codes "V17" ∷ codes "V18" ∷ codes "V19" ∷ codes "V20" ∷
        codes "V21" ∷ codes "V22" ∷ codes "V23" ∷ codes "V24" ∷ codes "V25" ∷
        codes "V26" ∷ codes "V27" ∷ codes "V28" ∷ codes "V29" ∷ codes "V30" ∷
        codes "V31" ∷ codes "V32" ∷ codes "V33" ∷ codes "V34" ∷ codes "V35" ∷
        codes "V36" ∷ codes "V37" ∷ codes "V38" ∷ codes "V39" ∷ codes "V40" ∷
        codes "V41" ∷ codes "V42" ∷ codes "V43" ∷ codes "V44" ∷ codes "V45" ∷
        codes "V46" ∷ codes "V47" ∷ codes "V48" ∷ codes "V49" ∷ codes "V50" ∷
        codes "V51" ∷ codes "V52" ∷ codes "V53" ∷ codes "V54" ∷ codes "V55" ∷
        codes "V56" ∷ codes "V57" ∷ codes "V58" ∷ codes "V59" ∷ codes "V60" ∷
        codes "V61" ∷ codes "V62" ∷ codes "V63" ∷ codes "V64" ∷ codes "V65" ∷
        codes "V66" ∷ codes "V67" ∷ codes "V68" ∷ codes "V69" ∷ codes "V70" ∷
        codes "V71" ∷ codes "V72" ∷ codes "V73" ∷ codes "V74" ∷ codes "V75" ∷
        codes "V76" ∷ codes "V77" ∷ codes "V78" ∷ codes "V79" ∷ codes "V80" ∷
        codes "V81" ∷ codes "V82" ∷ codes "V83" ∷ codes "V84" ∷ codes "V85" ∷
        codes "V86" ∷ codes "V87" ∷ codes "V88" ∷ codes "V89" ∷ codes "V90" ∷
        codes "V91" ∷ codes "V92" ∷ codes "V93" ∷ codes "V94" ∷ codes "V95" ∷
        codes "V96" ∷ codes "V97" ∷ codes "V98" ∷ codes "V99" ∷ codes "V100" ∷
        codes "V101" ∷ codes "V102" ∷ codes "V103" ∷ codes "V104" ∷ codes "V105" ∷
        codes "V106" ∷ codes "V107" ∷ codes "V108" ∷ codes "V109" ∷ codes "V110" ∷
        codes "V111" ∷ codes "V112" ∷ codes "V113" ∷ codes "V114" ∷ codes "V115" ∷
        codes "V116" ∷ codes "V117" ∷ codes "V118" ∷ codes "V119" ∷ codes "V120" ∷
        codes "V121" ∷ codes "V122" ∷ codes "V123" ∷ codes "V124" ∷ codes "V125" ∷
        codes "V126" ∷ codes "V127" ∷ codes "V128" ∷ codes "V129" ∷ codes "V130" ∷
        codes "V131" ∷ codes "V132" ∷ codes "V133" ∷ codes "V134" ∷ codes "V135" ∷
        codes "V136" ∷ codes "V137" ∷ codes "V138" ∷ codes "V139" ∷ codes "V140" ∷
        codes "V141" ∷ codes "V142" ∷ codes "V143" ∷ codes "V144" ∷ codes "V145" ∷
        codes "V146" ∷ codes "V147" ∷ codes "V148" ∷ codes "V149" ∷ codes "V150" ∷
        codes "V151" ∷ codes "V152" ∷ codes "V153" ∷ codes "V154" ∷ codes "V155" ∷
        codes "V156" ∷ codes "V157" ∷ codes "V158" ∷ codes "V159" ∷ codes "V160" ∷
        codes "V161" ∷ codes "V162" ∷ codes "V163" ∷ codes "V164" ∷ codes "V165" ∷
        codes "V166" ∷ codes "V167" ∷ codes "V168" ∷ codes "V169" ∷ codes "V170" ∷
        codes "V171" ∷ codes "V172" ∷ codes "V173" ∷ codes "V174" ∷ codes "V175" ∷
        codes "V176" ∷ codes "V177" ∷ codes "V178" ∷ codes "V179" ∷ codes "V180" ∷
        codes "V181" ∷ codes "V182" ∷ codes "V183" ∷ codes "V184" ∷ codes "V185" ∷
        codes "V186" ∷ codes "V187" ∷ codes "V188" ∷ codes "V189" ∷ codes "V190" ∷
        codes "V191" ∷ codes "V192" ∷ codes "V193" ∷ codes "V194" ∷ codes "V195" ∷
        codes "V196" ∷ codes "V197" ∷ codes "V198" ∷ codes "V199" ∷ codes "V200" ∷
        codes "V201" ∷ codes "V202" ∷ codes "V203" ∷ codes "V204" ∷ codes "V205" ∷
        codes "V206" ∷ codes "V207" ∷ codes "V208" ∷ codes "V209" ∷ codes "V210" ∷
        codes "V211" ∷ codes "V212" ∷ codes "V213" ∷ codes "V214" ∷ codes "V215" ∷
        codes "V216" ∷ codes "V217" ∷ codes "V218" ∷ codes "V219" ∷ codes "V220" ∷
        codes "V221" ∷ codes "V222" ∷ codes "V223" ∷ codes "V224" ∷ codes "V225" ∷
        codes "V226" ∷ codes "V227" ∷ codes "V228" ∷ codes "V229" ∷ codes "V230" ∷
        codes "V231" ∷ codes "V232" ∷ codes "V233" ∷ codes "V234" ∷ codes "V235" ∷
        codes "V236" ∷ codes "V237" ∷ codes "V238" ∷ codes "V239" ∷ codes "V240" ∷
        codes "V241" ∷ codes "V242" ∷ codes "V243" ∷ codes "V244" ∷ codes "V245" ∷
        codes "V246" ∷ codes "V247" ∷ codes "V248" ∷ codes "V249" ∷ codes "V250" ∷
        codes "V251" ∷ codes "V252" ∷ codes "V253" ∷ codes "V254" ∷ codes "V255" ∷ [] };

    fn names() -> &'static [(Self, &'static str)] {
        names_of!(
            Of256: V0 V1 V2 V3 V4 V5 V6 V7 V8 V9 V10 V11 V12 V13 V14 V15 V16 V17 V18 V19 V20 V21 V22
            V23 V24 V25 V26 V27 V28 V29 V30 V31 V32 V33 V34 V35 V36 V37 V38 V39 V40 V41 V42 V43 V44
            V45 V46 V47 V48 V49 V50 V51 V52 V53 V54 V55 V56 V57 V58 V59 V60 V61 V62 V63 V64 V65 V66
            V67 V68 V69 V70 V71 V72 V73 V74 V75 V76 V77 V78 V79 V80 V81 V82 V83 V84 V85 V86 V87 V88
            V89 V90 V91 V92 V93 V94 V95 V96 V97 V98 V99 V100 V101 V102 V103 V104 V105 V106 V107 V108
            V109 V110 V111 V112 V113 V114 V115 V116 V117 V118 V119 V120 V121 V122 V123 V124 V125
            V126 V127 V128 V129 V130 V131 V132 V133 V134 V135 V136 V137 V138 V139 V140 V141 V142
            V143 V144 V145 V146 V147 V148 V149 V150 V151 V152 V153 V154 V155 V156 V157 V158 V159
            V160 V161 V162 V163 V164 V165 V166 V167 V168 V169 V170 V171 V172 V173 V174 V175 V176
            V177 V178 V179 V180 V181 V182 V183 V184 V185 V186 V187 V188 V189 V190 V191 V192 V193
            V194 V195 V196 V197 V198 V199 V200 V201 V202 V203 V204 V205 V206 V207 V208 V209 V210
            V211 V212 V213 V214 V215 V216 V217 V218 V219 V220 V221 V222 V223 V224 V225 V226 V227
            V228 V229 V230 V231 V232 V233 V234 V235 V236 V237 V238 V239 V240 V241 V242 V243 V244
            V245 V246 V247 V248 V249 V250 V251 V252 V253 V254 V255
        )
    }

    ghost named = { tt };
}

impl Of256 {
    ghost use Rattle.std.specs.Prelude.{◌≡◌, IfOk, IfErr, Some, string_bytes};
    ghost use Rattle.serde_json.specs.Written.{compact_text};
    ghost use Rattle.serde_json.specs.Read.{read};
    ghost use Rattle.serde_json.specs.View.{view};
    ghost use Rattle.enumset.specs.Names.{names_of};
    ghost use Rattle.enumset.specs.JsonNames.{list_value, set_of_list};
    ghost use Rattle.enumset.specs.JsonPlain.{IsPlainList};
    ghost use Rattle.enumset.specs.JsonReads.{value_read, IsResult, IsReadOf};
    ghost use Rattle.enumset.specs.declared.set_json.fault.JsonFault.TheVariants.{OutOfMemory};
    ghost use Rattle.enumset.specs.declared.set_json.unknown.Unknown.TheVariants as unknown;

    /// The array of the names of the set's members, in ascending order of their bits. The only fault is
    /// [`set_json::JsonFault::OutOfMemory`].
    pub fn to_json(
        alloc: std::alloc::Global,
        set: &EnumSet<Self>,
    ) -> std::result::Result<serde_json::Value, set_json::JsonFault>
        ensures value { IfOk result (λ value. view value ≡ list_value
            (names_of ⟦<Of256 as EnumSetType>⟧.elements ⟦<Of256 as EnumSetNames>⟧.names) set.now) }
        ensures fault { IfErr result (λ fault. fault ≡ OutOfMemory) }
    {
        set_json::to_list(alloc, set)
    }

    /// The set that `to_json` writes as this value. Names that no variant has are left out.
    ///
    /// The faults are those of [`set_json::from_list`], in the same order. It does not allocate.
    pub fn from_json(
        value: &serde_json::Value,
    ) -> std::result::Result<EnumSet<Self>, set_json::JsonFault>
        ensures { result ≡ set_of_list
            (names_of ⟦<Of256 as EnumSetType>⟧.elements ⟦<Of256 as EnumSetNames>⟧.names)
            unknown.Drop (view value.now) }
    {
        set_json::from_list(value, set_json::Unknown::Drop)
    }

    /// The string of `to_json`'s value, without spaces. The only fault is
    /// [`set_json::JsonFault::OutOfMemory`].
    pub fn to_json_text(
        alloc: std::alloc::Global,
        set: &EnumSet<Self>,
    ) -> std::result::Result<std::string::String, set_json::JsonFault>
        ensures text { IfOk result (λ text. string_bytes text
            ≡ compact_text (list_value
            (names_of ⟦<Of256 as EnumSetType>⟧.elements ⟦<Of256 as EnumSetNames>⟧.names) set.now)) }
        ensures reads { IfOk result (λ text. read (string_bytes text)
            ≡ Some (list_value
            (names_of ⟦<Of256 as EnumSetType>⟧.elements ⟦<Of256 as EnumSetNames>⟧.names) set.now)) }
        ensures fault { IfErr result (λ fault. fault ≡ OutOfMemory) }
    {
        set_json::to_list_text(alloc, set)
    }

    /// What `from_json` returns of the value that this string is read as. Names that no variant has are left out.
    ///
    /// The faults are those of [`set_json::from_list_text`].
    pub fn from_json_text(
        alloc: std::alloc::Global,
        text: &str,
    ) -> std::result::Result<EnumSet<Self>, set_json::JsonFault>
        ensures read { IsReadOf (set_of_list
            (names_of ⟦<Of256 as EnumSetType>⟧.elements ⟦<Of256 as EnumSetNames>⟧.names)
            unknown.Drop) text.now result }
        ensures plain { IsPlainList text.now → IsResult (value_read (set_of_list
            (names_of ⟦<Of256 as EnumSetType>⟧.elements ⟦<Of256 as EnumSetNames>⟧.names)
            unknown.Drop) text.now) result }
    {
        set_json::from_list_text(alloc, text, set_json::Unknown::Drop)
    }
}
