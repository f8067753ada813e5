//! The elementary kinds (IEC 61131-3:2013, table 10).

ghost use Rattle.std.specs.Prelude.{◌≡◌};
ghost use Rattle.st_types.specs.Elem as kinds;

/// An elementary kind (IEC 61131-3:2013, table 10).
#[derive(Clone, Copy, Debug, PartialEq, Eq, PartialOrd, Ord, Hash)]
pub enum Elem {
    Bool,
    Sint,
    Int,
    Dint,
    Lint,
    Usint,
    Uint,
    Udint,
    Ulint,
    Byte,
    Word,
    Dword,
    Lword,
    /// A number of milliseconds.
    Time,
}

impl Elem {
    /// The width in bits: 1 for BOOL.
    #[inline]
    pub fn bits(self) -> u32
        ensures { result ≡ kinds.bits self }
    {
        match self {
            Elem::Bool => 1,
            Elem::Sint | Elem::Usint | Elem::Byte => 8,
            Elem::Int | Elem::Uint | Elem::Word => 16,
            Elem::Dint | Elem::Udint | Elem::Dword | Elem::Time => 32,
            Elem::Lint | Elem::Ulint | Elem::Lword => 64,
        }
    }

    /// How many bytes hold a value: a BOOL has one to itself.
    #[inline]
    pub fn bytes(self) -> u32
        ensures { result ≡ kinds.bytes self }
    {
        (self.bits() / 8).max(1)
    }

    /// Whether the values are in two's complement.
    #[inline]
    pub fn is_signed(self) -> bool
        ensures { result ≡ kinds.is_signed self }
    {
        match self {
            Elem::Sint | Elem::Int | Elem::Dint | Elem::Lint => true,
            _ => false,
        }
    }

    /// Whether it is a kind of integers, signed or unsigned.
    #[inline]
    pub fn is_integer(self) -> bool
        ensures { result ≡ kinds.is_integer self }
    {
        match self {
            Elem::Usint | Elem::Uint | Elem::Udint | Elem::Ulint => true,
            _ => self.is_signed(),
        }
    }

    /// Whether it is a bit string, which BOOL is not.
    #[inline]
    pub fn is_bit_string(self) -> bool
        ensures { result ≡ kinds.is_bit_string self }
    {
        match self {
            Elem::Byte | Elem::Word | Elem::Dword | Elem::Lword => true,
            _ => false,
        }
    }

    /// The name in capitals.
    pub fn name(self) -> &'static str
        ensures { result.now ≡ kinds.name self }
    {
        match self {
            Elem::Bool => "BOOL",
            Elem::Sint => "SINT",
            Elem::Int => "INT",
            Elem::Dint => "DINT",
            Elem::Lint => "LINT",
            Elem::Usint => "USINT",
            Elem::Uint => "UINT",
            Elem::Udint => "UDINT",
            Elem::Ulint => "ULINT",
            Elem::Byte => "BYTE",
            Elem::Word => "WORD",
            Elem::Dword => "DWORD",
            Elem::Lword => "LWORD",
            Elem::Time => "TIME",
        }
    }
}
