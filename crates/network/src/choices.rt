// Choices among stations or among legs.
ghost use Rattle.std.specs.Prelude.{◌≡◌, ℕ, Bool};

// Which numbers of stations, or of legs, belong to a choice. A trait and no closure: what it promises cites a ghost member,
// which a closure has not.
pub trait Belongs {
    ghost belongs: { Self → ℕ → Bool };

    // Whether a number belongs.
    fn belongs(&self, number: usize) -> bool
        ensures { result ≡ belongs self.now number };
}
