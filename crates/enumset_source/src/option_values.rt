//! The values of the options of an element type, by their names.

ghost use Rattle.std.specs.Prelude.{◌≡◌, false, IfSome, IfNone};
ghost use Rattle.enumset_source.specs.Numbers.{width};
ghost use Rattle.enumset_source.specs.OptionValues.{map_name, representation_name, serialized_name, is_among};
ghost use Rattle.enumset_source.specs.OptionValues.{map_names, representation_names, serialized_names};

/// Which bit a discriminant names.
#[derive(Clone, Copy)]
pub enum Map {
    /// The bit with its number, counted from the least significant bit.
    Lsb,
    /// The bit with its number, counted from the most significant bit of the representation.
    Msb,
    /// The bit whose mask it is.
    Mask,
    /// The variant's place in the declaration, whatever the discriminant.
    Compact,
}

/// What a set is stored in.
#[derive(Clone, Copy)]
pub enum Representation {
    /// One integer.
    Integer(IntegerType),
    /// Words of 64 bits: `array`.
    Words,
}

/// What a set is in JSON.
#[derive(Clone, Copy)]
pub enum Serialized {
    /// A number, or an array of words.
    Bits(Representation),
    /// A list of the elements' names: `list`.
    List,
    /// An object that maps the elements' names to whether they are members: `map`.
    Map,
}

/// An unsigned integer type.
#[derive(Clone, Copy)]
pub enum IntegerType {
    U8 = 8,
    U16 = 16,
    U32 = 32,
    U64 = 64,
    U128 = 128,
}

impl IntegerType {
    /// The number of bits of the type.
    pub fn width(self) -> u32
        ensures { result ≡ width self }
    {
        self as u32
    }
}

/// The map with this name.
pub fn map_of(name: &str) -> Option<Map>
    ensures read { IfSome result (λ read. map_name read ≡ name.now) }
    ensures none { IfNone result (is_among name.now map_names ≡ false) }
{
    match name {
        "lsb" => Some(Map::Lsb),
        "msb" => Some(Map::Msb),
        "mask" => Some(Map::Mask),
        "compact" => Some(Map::Compact),
        _ => None,
    }
}

/// The representation with this name.
pub fn representation_of(name: &str) -> Option<Representation>
    ensures read { IfSome result (λ read. representation_name read ≡ name.now) }
    ensures none { IfNone result (is_among name.now representation_names ≡ false) }
{
    match name {
        "u8" => Some(Representation::Integer(IntegerType::U8)),
        "u16" => Some(Representation::Integer(IntegerType::U16)),
        "u32" => Some(Representation::Integer(IntegerType::U32)),
        "u64" => Some(Representation::Integer(IntegerType::U64)),
        "u128" => Some(Representation::Integer(IntegerType::U128)),
        "array" => Some(Representation::Words),
        _ => None,
    }
}

/// The form of sets in JSON with this name.
pub fn serialized_of(name: &str) -> Option<Serialized>
    ensures read { IfSome result (λ read. serialized_name read ≡ name.now) }
    ensures none { IfNone result (is_among name.now serialized_names ≡ false) }
{
    match name {
        "list" => Some(Serialized::List),
        "map" => Some(Serialized::Map),
        _ => representation_of(name).map(Serialized::Bits),
    }
}
