// Kinds of set: what the members of a set are, and how many there can be.
ghost use Rattle.std.specs.Prelude.{ℕ, ◌≤◌, refl};
ghost use Rattle.std.proofs.lemmas.Bool.{ltb-false};

// A kind of set. Its members are numbered from 0 to COUNT - 1.
pub trait Kind {
    const COUNT: u32;

    // the same number, as contracts name it
    ghost COUNT: { ℕ };

    // a set is held in 64 bits
    ghost narrow: { COUNT ≤ 64 };
}

// The kind of sets of roles.
#[derive(Clone, Copy)]
pub struct Roles;

// The kind of sets of acts.
#[derive(Clone, Copy)]
pub struct Acts;

impl Kind for Roles {
    const COUNT: u32 = 32;

    ghost COUNT = { 32 };

    ghost narrow = { ltb-false 64 32 refl };
}

impl Kind for Acts {
    const COUNT: u32 = 16;

    ghost COUNT = { 16 };

    ghost narrow = { ltb-false 64 16 refl };
}
