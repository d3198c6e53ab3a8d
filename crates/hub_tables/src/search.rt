// The searches over the cards of a role. Each is written once for both roles: the number that is asked for says which.
// By a rule of the project, a search is a `for` loop over the cards with their index.
ghost use Rattle.std.specs.Prelude.{◌≡◌, Bool, true};
ghost use Rattle.std.specs.Option.{option_map};
ghost use Rattle.hub_tables.specs.Search.{Tells, active_card, last, last_card, last_lost};
ghost use Rattle.hub_tables.specs.SearchLaws.{LawsOfSearches};
ghost use Rattle.hub_cards.specs.declared.Status.{Status};

use hub_cards::{Card, CardNumber, Status};

/// The number of the active card; of several, the lowest.
pub fn active_card<N: CardNumber>(cards: &[Card<N::Partner>]) -> Option<N>
    ensures { option_map N.CardNumber.plain result ≡ active_card cards.now }
{
    for (i, card) in cards.iter().enumerate() {
        if card.status.is_active() {
            return Some(N::new(i + 1));
        }
    }
    None
}

// The highest number of a card whose status passes.
fn last<N: CardNumber, F: Fn(Status) -> bool>(cards: &[Card<N::Partner>], passes: F) -> Option<N>
    requires { F.IsAlwaysCallable passes }
    ensures { (test : Status → Bool) → Tells (F.post passes) test → option_map N.CardNumber.plain result ≡ last test 1 cards.now }
{
    let mut found = None;
    for (i, card) in cards.iter().enumerate() {
        if passes(card.status) {
            found = Some(N::new(i + 1));
        }
    }
    found
}

/// The highest number of a card that has been lost.
pub fn last_lost<N: CardNumber>(cards: &[Card<N::Partner>]) -> Option<N>
    ensures { option_map N.CardNumber.plain result ≡ last_lost cards.now }
{
    last(cards, Status::is_lost)
}

/// The highest number of a card that is or was in use.
pub fn last_card<N: CardNumber>(cards: &[Card<N::Partner>]) -> Option<N>
    ensures { option_map N.CardNumber.plain result ≡ last_card cards.now }
{
    last(cards, Status::is_used)
}

/// Whether an unused card is nothing that a search looks for: so it is, and on that rest the laws of the searches.
pub fn searches_keep_their_laws() -> bool
    ensures answered { result ≡ true }
    ensures stated { LawsOfSearches }
{
    !Status::Unused.is_used()
}
