//! Integer types.
ghost use Rattle.std.specs.Prelude.{◌≡◌, MatchOption};
ghost use Rattle.tok_leaves.specs.IntegerTypes.{integer_type_max, integer_type_name};
ghost use Rattle.tok_leaves.specs.declared.integer_type.IntegerType.{IntegerType};

/// An integer type, such as `u8`, whose name can be the suffix of an integer literal.
#[derive(Clone, Copy, PartialEq, Eq, Debug)]
pub enum IntegerType {
    I8,
    I16,
    I32,
    I64,
    I128,
    Isize,
    U8,
    U16,
    U32,
    U64,
    U128,
    Usize,
}

impl IntegerType {
    /// Returns the name of the type, such as `u8`.
    pub fn name(self) -> &'static str
        ensures { result.now ≡ integer_type_name self }
    {
        match self {
            IntegerType::I8 => "i8",
            IntegerType::I16 => "i16",
            IntegerType::I32 => "i32",
            IntegerType::I64 => "i64",
            IntegerType::I128 => "i128",
            IntegerType::Isize => "isize",
            IntegerType::U8 => "u8",
            IntegerType::U16 => "u16",
            IntegerType::U32 => "u32",
            IntegerType::U64 => "u64",
            IntegerType::U128 => "u128",
            IntegerType::Usize => "usize",
        }
    }

    /// Returns the type that has the name `name`, or `None` if no integer type has this name.
    pub fn of(name: &str) -> Option<IntegerType>
        ensures { MatchOption result
            ((type : IntegerType) → name.now ≡ integer_type_name type → ⊥)
            (λ type. name.now ≡ integer_type_name type) }
    {
        match name {
            "i8" => Some(IntegerType::I8),
            "i16" => Some(IntegerType::I16),
            "i32" => Some(IntegerType::I32),
            "i64" => Some(IntegerType::I64),
            "i128" => Some(IntegerType::I128),
            "isize" => Some(IntegerType::Isize),
            "u8" => Some(IntegerType::U8),
            "u16" => Some(IntegerType::U16),
            "u32" => Some(IntegerType::U32),
            "u64" => Some(IntegerType::U64),
            "u128" => Some(IntegerType::U128),
            "usize" => Some(IntegerType::Usize),
            _ => None,
        }
    }

    /// Returns the largest value of the type. The types `isize` and `usize` have 64 bits.
    pub fn max(self) -> u128
        ensures { result ≡ integer_type_max self }
    {
        match self {
            IntegerType::I8 => 0x7F,
            IntegerType::I16 => 0x7FFF,
            IntegerType::I32 => 0x7FFF_FFFF,
            IntegerType::I64 | IntegerType::Isize => 0x7FFF_FFFF_FFFF_FFFF,
            IntegerType::I128 => 0x7FFF_FFFF_FFFF_FFFF_FFFF_FFFF_FFFF_FFFF,
            IntegerType::U8 => 0xFF,
            IntegerType::U16 => 0xFFFF,
            IntegerType::U32 => 0xFFFF_FFFF,
            IntegerType::U64 | IntegerType::Usize => 0xFFFF_FFFF_FFFF_FFFF,
            IntegerType::U128 => u128::MAX,
        }
    }
}
