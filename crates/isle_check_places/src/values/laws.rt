//! Laws of values, which run no code.

ghost use Rattle.std.specs.Prelude.{◌≡◌, ℕ, ◌≤◌, ◌++◌, List, Option, true, All, Contains};
ghost use Rattle.isle_check_places.specs.Places.{ConstrainedNode};
ghost use Rattle.isle_check_environment.specs.signatures.Signatures.{TermNode};
ghost use Rattle.isle_check_places.specs.values.Values.{KnownNode, argument_shapes, longest, value};
ghost use Rattle.isle_check_places.specs.values.Values.{value_asks};

/// A law, which runs no code: a value that is sure satisfies all that both rules ask. Each of their
/// constraints is one of those that its shape asks.
pub fn sure_values_satisfy_both()
    ensures { (terms : List ℕ → Option TermNode) (term : List ℕ)
        (cs ds : List ConstrainedNode) → (value terms term cs ds).is_sure ≡ true
        → All (Contains (value_asks terms term cs ds)) (cs ++ ds) }
{}

/// A law, which runs no code: the depth of shapes suffices. Those to a greater depth are the same.
pub fn deeper_shapes_are_the_same()
    ensures { (known : KnownNode) (depth : ℕ) (term : List ℕ)
        → longest known.constraints ≤ depth
        → argument_shapes known depth term
        ≡ argument_shapes known (longest known.constraints) term }
{}
