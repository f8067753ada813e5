//! Laws of units that a text spells.

ghost use Rattle.accepted_texts.specs.formed_units.Formed.{FormedLaws};

/// What the tokens of a text spell is formed: a unit that is read, that of a text with other tokens of the same words, and two of them one
/// behind the other; an enumeration in it has no more values than the text has bytes.
pub fn formed_laws()
    ensures { FormedLaws }
{}
