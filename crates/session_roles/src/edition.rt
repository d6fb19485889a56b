ghost use Rattle.std.specs.Prelude.{◌≡◌, ◌≢◌, IfSome, IfNone};
ghost use Rattle.session_roles.specs.Edition.{edition_number, has_what_came_with, is_second};
ghost use Rattle.session_roles.specs.declared.edition.Edition.{Edition};

/// An edition of the policy. The second one has commentators and embargoes, and has all of the first.
#[derive(Clone, Copy, Debug)]
pub enum Edition {
    First,
    Second,
}

impl Edition {
    /// The edition's number, 1 or 2.
    pub fn number(self) -> u8
        ensures { result ≡ edition_number self }
    {
        match self {
            Edition::First => 1,
            Edition::Second => 2,
        }
    }

    /// The edition of a number.
    pub fn from_number(number: u64) -> Option<Edition>
        ensures found { IfSome result (λ edition. edition_number edition ≡ number) }
        ensures none { IfNone result ((edition : Edition) → edition_number edition ≢ number) }
    {
        match number {
            1 => Some(Edition::First),
            2 => Some(Edition::Second),
            _ => None,
        }
    }

    /// Whether it is the second one.
    pub fn is_second(self) -> bool
        ensures { result ≡ is_second self }
    {
        match self {
            Edition::First => false,
            Edition::Second => true,
        }
    }

    /// Whether it has what came with an edition.
    pub fn has_what_came_with(self, since: Edition) -> bool
        ensures { result ≡ has_what_came_with self since }
    {
        match since {
            Edition::First => true,
            Edition::Second => self.is_second(),
        }
    }
}

impl PartialEq for Edition {
    ghost use Rattle.std.specs.Cmp.{on_per, partial_equiv_from_equiv, nat_eq_equiv};
    ghost use Rattle.session_roles.specs.Edition.{edition_number, same_edition};

    ghost eq = { same_edition };

    ghost laws = { on_per edition_number (partial_equiv_from_equiv nat_eq_equiv) };

    fn eq(&self, other: &Edition) -> bool {
        self.number() == other.number()
    }
}

impl Eq for Edition {
    ghost use Rattle.std.specs.Cmp.{on_equiv, nat_eq_equiv};
    ghost use Rattle.session_roles.specs.Edition.{edition_number};

    ghost laws = { on_equiv edition_number nat_eq_equiv };
}
