//! Words that stand twice.

ghost use Rattle.std.specs.Prelude.{◌≡◌, ◌≤◌, ◌+◌, length, filter};
ghost use Rattle.std.specs.List.{list_any};
ghost use Rattle.std.specs.Option.{is_some};
ghost use Rattle.st_rules.specs.Faults.{least};
ghost use Rattle.st_rules.specs.Modifiers.{access_word};
ghost use Rattle.st_unit_rules.specs.NameRules as rules;

use plc_text::Code;
use st_rules::when;
use st_tree::Modifier;

fn same_word(word: Modifier, other: Modifier) -> bool
    ensures { result ≡ rules.same_word word other }
{
    match word {
        Modifier::Constant => matches!(other, Modifier::Constant),
        Modifier::Retain => matches!(other, Modifier::Retain),
        Modifier::NonRetain => matches!(other, Modifier::NonRetain),
        Modifier::Persistent => matches!(other, Modifier::Persistent),
        Modifier::Public => matches!(other, Modifier::Public),
        Modifier::Protected => matches!(other, Modifier::Protected),
        Modifier::Private => matches!(other, Modifier::Private),
        Modifier::Internal => matches!(other, Modifier::Internal),
        Modifier::Abstract => matches!(other, Modifier::Abstract),
        Modifier::Final => matches!(other, Modifier::Final),
        Modifier::Override => matches!(other, Modifier::Override),
    }
}

fn has_word(words: &[Modifier], word: Modifier) -> bool
    ensures { result ≡ list_any (rules.same_word word) words.now }
{
    words.iter().any(|other| same_word(word, *other))
}

/// Whether a word stands again behind itself. There are eleven words, so this looks at the first twelve at most.
fn has_word_twice(words: &[Modifier]) -> bool
    ensures { result ≡ rules.has_word_twice words.now }
{
    let mut left = words;
    'words: while let Some((word, behind)) = left.split_first() {
        if has_word(behind, *word) {
            return true;
        }
        left = behind;
    }
    false
}

pub fn is_access_word(word: Modifier) -> bool
    ensures { result ≡ is_some (access_word word) }
{
    match word {
        Modifier::Public => true,
        Modifier::Protected => true,
        Modifier::Private => true,
        Modifier::Internal => true,
        _ => false,
    }
}

/// How many access words there are.
fn count_access_words(words: &[Modifier]) -> usize
    ensures { result ≡ length (filter (λ m. is_some (access_word m)) words.now) }
{
    let mut count: usize = 0;
    for word in words {
        if is_access_word(*word) {
            count += 1;
        }
    }
    count
}

/// E04 at the line where a word stands twice, or two access words stand.
pub fn word_twice(line: u32, words: &[Modifier]) -> Option<(Code, u32)>
    ensures { result ≡ least (rules.word_twice line words.now) }
{
    let twice = has_word_twice(words) || count_access_words(words) > 1;
    when(twice, Code::E04, line)
}
