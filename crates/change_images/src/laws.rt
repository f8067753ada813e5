//! What follows from the definitions of the phases on images, and what the answer of `apply` means.

ghost use Rattle.change_images.specs.ImageLaws.{ImageLaws};
ghost use Rattle.change_images.specs.ChangeLaws.{ChangeLaws};
ghost use Rattle.change_images.specs.TableLaws.{TableLaws};

/// Clean images, moved by the plan, show the store that is carried; and the five phases on images do what they do on stores.
pub fn image_laws()
    ensures { ImageLaws }
{}

/// The phases by the plan of a pair of programs are the change that the meaning gives.
pub fn change_laws()
    ensures { ChangeLaws }
{}

/// The table of ways relocates each address as the change asks.
pub fn table_laws()
    ensures { TableLaws }
{}
