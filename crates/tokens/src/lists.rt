// The lists of names that a caller lends with a script.
ghost use Rattle.std.specs.Prelude.{◌≡◌};
ghost use Rattle.tokens.specs.Names.{good_lists};
ghost use Rattle.tokens.specs.LentLists.{lists_of};

use crate::names::is_well_formed;

// Reserved words, currencies, day counters.
#[derive(Clone, Copy)]
pub struct Lists<'a> {
    pub reserved: &'a [u8],
    pub currencies: &'a [u8],
    pub counters: &'a [u8],
}

impl<'a> Lists<'a> {
    #[tactic(auto, unfolding(crate::specs::Names::good_lists))]
    pub fn are_well_formed(&self) -> bool
        ensures { result ≡ good_lists (lists_of self.now) }
    {
        is_well_formed(false, self.reserved)
            && (is_well_formed(true, self.currencies) && is_well_formed(false, self.counters))
    }
}
