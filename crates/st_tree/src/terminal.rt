//! What tokens are to the grammar: one terminal for each keyword and each symbol, and one for each other kind of token.

ghost use Rattle.std.specs.Prelude.{◌≡◌, ℕ, true, List, [], ◌∷◌};
ghost use Rattle.plc_text.specs.Text.{folded};
ghost use Rattle.st_tree.specs.Terminal as terminals;
ghost use Rattle.st_tree.specs.Reads as reads;
ghost use Rattle.st_tree.specs.Private.Terminal.{rows_of, rows_of_all, IsByLetter};

use crate::token::TokenKind;
use plc_text::spells;
use st_types::Elem;

/// What a token is to the grammar: every keyword and every symbol is one of its own.
#[derive(Clone, Copy, Debug, PartialEq, Eq)]
pub enum Terminal {
    /// A word that is no keyword.
    Word,
    Int,
    /// `T#5s`
    Duration,
    /// `%QD0`
    Address,
    /// The name of an elementary kind.
    Kind(Elem),
    Abstract,
    And,
    AndThen,
    Array,
    At,
    By,
    Case,
    Class,
    Configuration,
    Constant,
    Continue,
    Do,
    Else,
    Elsif,
    EndCase,
    EndClass,
    EndConfiguration,
    EndFor,
    EndFunction,
    EndFunctionBlock,
    EndIf,
    EndInterface,
    EndMethod,
    EndProgram,
    EndRepeat,
    EndResource,
    EndStruct,
    EndType,
    EndVar,
    EndWhile,
    Exit,
    Extends,
    False,
    Final,
    For,
    Function,
    FunctionBlock,
    If,
    Implements,
    Interface,
    Internal,
    Method,
    Mod,
    NonRetain,
    Not,
    Null,
    Of,
    On,
    Or,
    OrElse,
    Override,
    Persistent,
    Private,
    Program,
    Protected,
    Public,
    Ref,
    RefTo,
    Repeat,
    Resource,
    Retain,
    Return,
    Struct,
    Super,
    Task,
    Then,
    This,
    To,
    True,
    Type,
    Until,
    Var,
    VarExternal,
    VarGlobal,
    VarInput,
    VarInOut,
    VarOutput,
    VarTemp,
    While,
    With,
    Xor,
    /// `:=`
    Assign,
    /// `?=`
    Attempt,
    /// `=>`
    Sends,
    /// `..`
    Range,
    /// `<=`
    AtMost,
    /// `>=`
    AtLeast,
    /// `<>`
    Differs,
    /// `:`
    Colon,
    /// `;`
    Semicolon,
    /// `,`
    Comma,
    /// `.`
    Dot,
    /// `(`
    Open,
    /// `)`
    Close,
    /// `[`
    OpenBracket,
    /// `]`
    CloseBracket,
    /// `^`
    Caret,
    /// `#`
    Hash,
    /// `+`
    Plus,
    /// `-`
    Minus,
    /// `*`
    Times,
    /// `/`
    Slash,
    /// `=`
    Equal,
    /// `<`
    Less,
    /// `>`
    Greater,
    /// `&`
    Ampersand,
}

/// The keywords that begin with A, those that begin with B, and so on.
static KEYWORDS: [&[(&str, Terminal)]; 26] = [
    &[
        ("ABSTRACT", Terminal::Abstract),
        ("AND", Terminal::And),
        ("AND_THEN", Terminal::AndThen),
        ("ARRAY", Terminal::Array),
        ("AT", Terminal::At),
    ],
    &[
        ("BOOL", Terminal::Kind(Elem::Bool)),
        ("BY", Terminal::By),
        ("BYTE", Terminal::Kind(Elem::Byte)),
    ],
    &[
        ("CASE", Terminal::Case),
        ("CLASS", Terminal::Class),
        ("CONFIGURATION", Terminal::Configuration),
        ("CONSTANT", Terminal::Constant),
        ("CONTINUE", Terminal::Continue),
    ],
    &[
        ("DINT", Terminal::Kind(Elem::Dint)),
        ("DO", Terminal::Do),
        ("DWORD", Terminal::Kind(Elem::Dword)),
    ],
    &[
        ("ELSE", Terminal::Else),
        ("ELSIF", Terminal::Elsif),
        ("END_CASE", Terminal::EndCase),
        ("END_CLASS", Terminal::EndClass),
        ("END_CONFIGURATION", Terminal::EndConfiguration),
        ("END_FOR", Terminal::EndFor),
        ("END_FUNCTION", Terminal::EndFunction),
        ("END_FUNCTION_BLOCK", Terminal::EndFunctionBlock),
        ("END_IF", Terminal::EndIf),
        ("END_INTERFACE", Terminal::EndInterface),
        ("END_METHOD", Terminal::EndMethod),
        ("END_PROGRAM", Terminal::EndProgram),
        ("END_REPEAT", Terminal::EndRepeat),
        ("END_RESOURCE", Terminal::EndResource),
        ("END_STRUCT", Terminal::EndStruct),
        ("END_TYPE", Terminal::EndType),
        ("END_VAR", Terminal::EndVar),
        ("END_WHILE", Terminal::EndWhile),
        ("EXIT", Terminal::Exit),
        ("EXTENDS", Terminal::Extends),
    ],
    &[
        ("FALSE", Terminal::False),
        ("FINAL", Terminal::Final),
        ("FOR", Terminal::For),
        ("FUNCTION", Terminal::Function),
        ("FUNCTION_BLOCK", Terminal::FunctionBlock),
    ],
    &[],
    &[],
    &[
        ("IF", Terminal::If),
        ("IMPLEMENTS", Terminal::Implements),
        ("INT", Terminal::Kind(Elem::Int)),
        ("INTERFACE", Terminal::Interface),
        ("INTERNAL", Terminal::Internal),
    ],
    &[],
    &[],
    &[
        ("LINT", Terminal::Kind(Elem::Lint)),
        ("LWORD", Terminal::Kind(Elem::Lword)),
    ],
    &[("METHOD", Terminal::Method), ("MOD", Terminal::Mod)],
    &[
        ("NON_RETAIN", Terminal::NonRetain),
        ("NOT", Terminal::Not),
        ("NULL", Terminal::Null),
    ],
    &[
        ("OF", Terminal::Of),
        ("ON", Terminal::On),
        ("OR", Terminal::Or),
        ("OR_ELSE", Terminal::OrElse),
        ("OVERRIDE", Terminal::Override),
    ],
    &[
        ("PERSISTENT", Terminal::Persistent),
        ("PRIVATE", Terminal::Private),
        ("PROGRAM", Terminal::Program),
        ("PROTECTED", Terminal::Protected),
        ("PUBLIC", Terminal::Public),
    ],
    &[],
    &[
        ("REF", Terminal::Ref),
        ("REF_TO", Terminal::RefTo),
        ("REPEAT", Terminal::Repeat),
        ("RESOURCE", Terminal::Resource),
        ("RETAIN", Terminal::Retain),
        ("RETURN", Terminal::Return),
    ],
    &[
        ("SINT", Terminal::Kind(Elem::Sint)),
        ("STRUCT", Terminal::Struct),
        ("SUPER", Terminal::Super),
    ],
    &[
        ("TASK", Terminal::Task),
        ("THEN", Terminal::Then),
        ("THIS", Terminal::This),
        ("TIME", Terminal::Kind(Elem::Time)),
        ("TO", Terminal::To),
        ("TRUE", Terminal::True),
        ("TYPE", Terminal::Type),
    ],
    &[
        ("UDINT", Terminal::Kind(Elem::Udint)),
        ("UINT", Terminal::Kind(Elem::Uint)),
        ("ULINT", Terminal::Kind(Elem::Ulint)),
        ("UNTIL", Terminal::Until),
        ("USINT", Terminal::Kind(Elem::Usint)),
    ],
    &[
        ("VAR", Terminal::Var),
        ("VAR_EXTERNAL", Terminal::VarExternal),
        ("VAR_GLOBAL", Terminal::VarGlobal),
        ("VAR_INPUT", Terminal::VarInput),
        ("VAR_IN_OUT", Terminal::VarInOut),
        ("VAR_OUTPUT", Terminal::VarOutput),
        ("VAR_TEMP", Terminal::VarTemp),
    ],
    &[
        ("WHILE", Terminal::While),
        ("WITH", Terminal::With),
        ("WORD", Terminal::Kind(Elem::Word)),
    ],
    &[("XOR", Terminal::Xor)],
    &[],
    &[],
];

/// What the row with the text in upper case stands for.
fn terminal_in(rows: &[(&str, Terminal)], text: &[u8]) -> Option<Terminal>
    ensures { result ≡ terminals.terminal_in (rows_of rows.now) (folded text.now) }
{
    for row in rows {
        if spells(text, row.0.as_bytes()) {
            return Some(row.1);
        }
    }
    None
}

/// What the row with the text in upper case stands for, where there is a list of rows for each first letter.
fn terminal_by_letter(lists: &[&[(&str, Terminal)]], text: &[u8]) -> Option<Terminal>
    requires { IsByLetter lists.now }
    ensures { result ≡ terminals.terminal_in (rows_of_all lists.now) (folded text.now) }
{
    if text.is_empty() {
        return None;
    }
    let letter = text[0].to_ascii_uppercase();
    if !letter.is_ascii_uppercase() {
        return None;
    }
    terminal_in(lists[(letter - b'A') as usize], text)
}

/// The keyword that the text is, in upper or lower case.
pub fn keyword(word: &[u8]) -> Option<Terminal>
    ensures { result ≡ terminals.terminal_in terminals.keyword_terminals (folded word.now) }
{
    terminal_by_letter(&KEYWORDS, word)
}

pub fn is_keyword(word: &[u8]) -> bool
    ensures { result ≡ terminals.is_keyword word.now }
{
    keyword(word).is_some()
}

/// The symbol that the text is.
pub fn symbol(text: &[u8]) -> Option<Terminal>
    ensures { result ≡ terminals.terminal_in terminals.symbol_terminals (folded text.now) }
{
    match text.len() {
        1 => single(text[0]),
        2 => double(text[0], text[1]),
        _ => None,
    }
}

/// The symbol of one character.
#[tactic(auto, unfolding(crate::specs::Terminal::symbol_terminals))]
fn single(byte: u8) -> Option<Terminal>
    ensures { result ≡ terminals.terminal_in terminals.symbol_terminals (byte ∷ []) }
{
    match byte {
        b':' => Some(Terminal::Colon),
        b';' => Some(Terminal::Semicolon),
        b',' => Some(Terminal::Comma),
        b'.' => Some(Terminal::Dot),
        b'(' => Some(Terminal::Open),
        b')' => Some(Terminal::Close),
        b'[' => Some(Terminal::OpenBracket),
        b']' => Some(Terminal::CloseBracket),
        b'^' => Some(Terminal::Caret),
        b'#' => Some(Terminal::Hash),
        b'+' => Some(Terminal::Plus),
        b'-' => Some(Terminal::Minus),
        b'*' => Some(Terminal::Times),
        b'/' => Some(Terminal::Slash),
        b'=' => Some(Terminal::Equal),
        b'<' => Some(Terminal::Less),
        b'>' => Some(Terminal::Greater),
        b'&' => Some(Terminal::Ampersand),
        _ => None,
    }
}

/// The symbol of two characters.
#[tactic(auto, unfolding(crate::specs::Terminal::symbol_terminals))]
fn double(first: u8, second: u8) -> Option<Terminal>
    ensures { result ≡ terminals.terminal_in terminals.symbol_terminals (first ∷ second ∷ []) }
{
    match (first, second) {
        (b':', b'=') => Some(Terminal::Assign),
        (b'?', b'=') => Some(Terminal::Attempt),
        (b'=', b'>') => Some(Terminal::Sends),
        (b'.', b'.') => Some(Terminal::Range),
        (b'<', b'=') => Some(Terminal::AtMost),
        (b'>', b'=') => Some(Terminal::AtLeast),
        (b'<', b'>') => Some(Terminal::Differs),
        _ => None,
    }
}

/// What a token of this kind with this text is to the grammar; nothing where it is a mark, or a keyword or symbol with
/// the text of none.
pub fn terminal_of(kind: TokenKind, text: &str) -> Option<Terminal>
    ensures { result ≡ reads.terminal_of kind (folded text.now) }
{
    match kind {
        TokenKind::Word => Some(Terminal::Word),
        TokenKind::Keyword => keyword(text.as_bytes()),
        TokenKind::Int => Some(Terminal::Int),
        TokenKind::Time => Some(Terminal::Duration),
        TokenKind::Address => Some(Terminal::Address),
        TokenKind::Symbol => symbol(text.as_bytes()),
        TokenKind::Mark => None,
    }
}

/// Each keyword has a terminal of its own, each symbol another, and none of them is that of a word or a value.
pub fn terminal_laws()
    ensures keywords { terminals.IsTable terminals.keyword_terminals }
    ensures symbols { terminals.IsTable terminals.symbol_terminals }
    ensures apart { (text other : List ℕ) (t : Terminal) → terminals.terminal_in terminals.keyword_terminals text ≡ Some t
        → terminals.terminal_in terminals.symbol_terminals other ≡ Some t → ⊥ }
    ensures no_keyword { (text : List ℕ) (t : Terminal) → terminals.is_word_or_value t ≡ true → terminals.terminal_in terminals.keyword_terminals text ≡ Some t → ⊥ }
    ensures no_symbol { (text : List ℕ) (t : Terminal) → terminals.is_word_or_value t ≡ true → terminals.terminal_in terminals.symbol_terminals text ≡ Some t → ⊥ }
    ensures no_more { (t : Terminal) → terminals.IsOfSomeText t }
{}
