//! Worked examples of the definitions, proved by computing: each is the `ensures` of a function
//! that does nothing.

ghost use Rattle.std.specs.Prelude.{◌≡◌, ℕ, [], ◌∷◌, length, true, false, Some, None};
ghost use Rattle.part_table.specs.Examples.{owned_table};
ghost use Rattle.part_table.specs.Faults.{link_fault};
ghost use Rattle.owner_data.specs.Examples.{full_owner, two_owners};
ghost use Rattle.owner_data.specs.Owners.{data_parts, owner_pair};

/// The owners of partitions, with their B where they have one; a B of data and an owner have none.
pub fn owners_are_found()
    ensures pair { owner_pair owned_table.parts.items 2 ≡ Some (0, Some 1) }
    ensures second { owner_pair owned_table.parts.items 3 ≡ None }
    ensures image { owner_pair owned_table.parts.items 0 ≡ None }
    ensures far { owner_pair two_owners 1 ≡ Some (0, Some 6) }
    ensures lone { owner_pair two_owners 3 ≡ Some (2, None) }
    ensures both { owner_pair two_owners 4 ≡ Some (0, Some 6) }
    ensures last { owner_pair full_owner 0 ≡ Some (14, None) }
{}

/// The data of owners: their own partitions in table order, and the B of those that have one.
pub fn data_is_listed()
    ensures pair_a { data_parts owned_table.parts.items 0 false ≡ 2 ∷ [] }
    ensures pair_b { data_parts owned_table.parts.items 0 true ≡ 3 ∷ [] }
    ensures of_b { data_parts owned_table.parts.items 1 true ≡ [] }
    ensures of_data { data_parts owned_table.parts.items 2 true ≡ [] }
    ensures two_a { data_parts two_owners 0 false ≡ 1 ∷ 4 ∷ [] }
    ensures two_b { data_parts two_owners 0 true ≡ 1 ∷ 5 ∷ [] }
    ensures other_a { data_parts two_owners 2 false ≡ 3 ∷ [] }
    ensures other_b { data_parts two_owners 2 true ≡ 3 ∷ [] }
{}

/// The links of the examples are right, and an owner can have fourteen partitions.
pub fn examples_are_right()
    ensures owned { link_fault owned_table.parts.items ≡ None }
    ensures two { link_fault two_owners ≡ None }
    ensures full { link_fault full_owner ≡ None }
    ensures fourteen { length (data_parts full_owner 14 true) ≡ 14 }
{}
