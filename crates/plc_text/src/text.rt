//! Texts that own their bytes.

ghost use Rattle.std.specs.Prelude.{◌≡◌, ◌↔◌, [], ◌++◌, length, nat_eq, decimal, refl, Some, IsTrue, IfOk, OnOk, OnErr};
ghost use Rattle.std.specs.Fmt.{styled_text, debug_str};
ghost use Rattle.std.specs.Hash as fed;
ghost use Rattle.std.specs.Ordering.{nat_cmp};
ghost use Rattle.std.specs.Cmp.{partial_equiv_from_equiv};
ghost use Rattle.std.specs.Cmp.Lexicographic.{pointwise, slice_cmp, nat_list_eq_equiv, nat_list_cmp_total, texts_ties, texts_po};
ghost use Rattle.std.specs.Cmp.Rules.{hashing};
ghost use Rattle.std.proofs.Common.{rules};
ghost use Rattle.hex.specs.Hex.{encode_lower};
ghost use Rattle.plc_text.specs.Text.{folded};

use crate::memory::NoMemory;
use itoa::Buffer;
use std::alloc::Global;
use std::cmp::Ordering;
use std::fmt;
use std::fmt::{Debug, Display, Formatter, Write};
use std::hash::{Hash, Hasher};
use std::marker::Model;

/// A text that owns its bytes, which are UTF-8. A contract sees it as the list of those bytes.
#[derive(Drop)]
pub struct Text {
    content: String,
}

impl Model for Text {
    ghost use Rattle.std.specs.Prelude.{ℕ, List};
    ghost use Rattle.std.specs.String.{string_bytes};

    ghost Value = { List ℕ };

    ghost view = { λ t. string_bytes t.content };
}

impl Text {
    /// An empty text, which takes no memory. It keeps `alloc` for what is pushed to it.
    pub fn new(alloc: Global) -> Text
        ensures { result ≡ [] }
    {
        Text {
            content: String::new(alloc),
        }
    }

    pub fn copy(alloc: Global, s: &str) -> Result<Text, NoMemory>
        ensures { IfOk result (λ t. t ≡ s.now) }
    {
        let content = String::from_str(alloc, s)?;
        Ok(Text { content })
    }

    /// `s` with each ASCII letter in upper case. Every other character stays as it is.
    ///
    /// IEC 61131-3 reads identifiers and keywords without regard to case, so two of them are the
    /// same where their folded texts are.
    pub fn folded(alloc: Global, s: &str) -> Result<Text, NoMemory>
        ensures { IfOk result (λ t. t ≡ folded s.now) }
    {
        let mut content = String::from_str(alloc, s)?;
        content.make_ascii_uppercase();
        Ok(Text { content })
    }

    pub fn as_str(&self) -> &str
        ensures { result.now ≡ self.now }
    {
        self.content.as_str()
    }

    pub fn as_bytes(&self) -> &[u8]
        ensures { result.now ≡ self.now }
    {
        self.content.as_bytes()
    }

    /// The length in bytes.
    pub fn len(&self) -> usize
        ensures { result ≡ length self.now }
    {
        self.content.len()
    }

    pub fn is_empty(&self) -> bool
        ensures { IsTrue result ↔ (self.now ≡ []) }
    {
        self.content.is_empty()
    }

    pub fn push_str(&mut self, s: &str) -> Result<(), NoMemory>
        ensures ok { OnOk result (self.new ≡ self.old ++ s.now) }
        ensures err { OnErr result (self.new ≡ self.old) }
    {
        self.content.push_str(s)?;
        Ok(())
    }

    /// Appends a number in decimal, with no leading zero.
    pub fn push_decimal(&mut self, v: u64) -> Result<(), NoMemory>
        ensures ok { OnOk result (self.new ≡ self.old ++ decimal v) }
        ensures err { OnErr result (self.new ≡ self.old) }
    {
        self.push_str(Buffer::new().format(v))
    }

    /// Appends two lower-case hexadecimal digits for each byte.
    pub fn push_hex(&mut self, bytes: &[u8]) -> Result<(), NoMemory>
        ensures ok { OnOk result (self.new ≡ self.old ++ encode_lower bytes.now) }
        ensures err { OnErr result (self.new ≡ self.old) }
    {
        let digits = hex::encode(*self.content.allocator(), bytes)?;
        self.push_str(digits.as_str())
    }
}

impl PartialEq for Text {
    ghost eq = { pointwise nat_eq };

    ghost laws = { partial_equiv_from_equiv nat_list_eq_equiv };

    fn eq(&self, other: &Text) -> bool
        ensures value { result ≡ pointwise nat_eq self.now other.now }
        ensures same { IsTrue result ↔ (self.now ≡ other.now) }
    {
        self.as_str() == other.as_str()
    }
}

impl Eq for Text {
    ghost laws = { nat_list_eq_equiv };
}

impl PartialOrd for Text {
    ghost partial_cmp = { λ a b. Some (slice_cmp nat_cmp a b) };

    ghost laws = { texts_po };

    fn partial_cmp(&self, other: &Text) -> Option<Ordering> {
        Some(self.cmp(other))
    }
}

impl Ord for Text {
    ghost cmp = { slice_cmp nat_cmp };

    ghost total = { nat_list_cmp_total };

    ghost matches_partial_cmp = { λ a b. refl };

    ghost matches_eq = { texts_ties };

    fn cmp(&self, other: &Text) -> Ordering {
        self.as_str().cmp(other.as_str())
    }
}

impl Hash for Text {
    ghost hash_input = { fed.str };

    ghost respects_eq = { Prim.search (hashing, rules) };

    fn hash<H: Hasher>(&self, state: &mut H) {
        self.as_str().hash(state);
    }
}

impl Debug for Text {
    ghost debug_output = { debug_str };

    fn fmt<W: Write>(&self, f: &mut Formatter<W>) -> fmt::Result {
        let s = self.as_str();
        Debug::fmt(&s, f)
    }
}

impl Display for Text {
    ghost output = { λ t. Some t };

    ghost styled_output = { λ t s. Some (styled_text s t) };

    fn fmt<W: Write>(&self, f: &mut Formatter<W>) -> fmt::Result {
        f.pad(self.as_str())
    }
}
