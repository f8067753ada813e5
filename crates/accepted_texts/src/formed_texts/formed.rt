//! Laws of the units that sources are.

ghost use Rattle.accepted_texts.specs.formed_texts.FormedTexts.{FormedTextLaws};

/// The unit that a source is, with the prelude before it, is formed; and in a formed unit that breaks no rule all is told.
pub fn formed_text_laws()
    ensures { FormedTextLaws }
{}
