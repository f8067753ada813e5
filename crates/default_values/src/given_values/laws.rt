//! A law of the elements of an array.

ghost use Rattle.std.specs.Prelude.{◌≡◌, ℕ, List, Option, Some, None};
ghost use Rattle.st_tree.specs.Initial.{Initial, Part, parts};
ghost use Rattle.st_unit_rules.specs.Worth.{Worth, no_worths, elements_worth, parts_listed};
ghost use Rattle.default_values.specs.given_values.Lists.{parts_worth, repeat_before, room_after};

/// The elements of an array are worth what each part gives, as often as there is room, and what the type gives for the rest.
pub fn element_laws()
    ensures { (f : Option (Initial ℕ) → Option Worth) (n : ℕ) (ps : List (Part ℕ)) → elements_worth f n (parts_listed (parts ps)) ≡ parts_worth f n ps (repeat_before (room_after n ps) (f None) (Some no_worths)) }
{}
