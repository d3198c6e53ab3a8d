// The steps on the cards alone: the loss of a card, and the making of a new one.
ghost use Rattle.std.specs.Prelude.{◌≡◌, map, length, IfOk, OnErr};
ghost use Rattle.hub_tables.specs.Search.{active_card};
ghost use Rattle.hub_steps.specs.CardSteps.{Creates, Loses, Within, choice_of, chosen};

use hub_cards::{Card, CardNumber, Status};
use hub_tables::search::{active_card, last_lost};
use refusals::Refusal;
use registers::Register;

// The active card is lost.
// By a rule of the project, a step takes the Option of a search apart itself, here and in `choose`.
pub(crate) fn lose<N: CardNumber>(cards: &mut [Card<N::Partner>]) -> Result<(), Refusal>
    ensures { Loses (active_card cards.old) cards.old result cards.new }
{
    let Some(active) = active_card::<N>(cards) else {
        return Err(Refusal::WrongCardStatus);
    };
    cards[active.number() - 1].status = Status::Lost;
    Ok(())
}

// The number of the card that makes a new one of the other role, and the number of the new one: the one after the last
// that was lost. The number of places comes from the hub's record, as in the model, so that the promise is of any tables.
fn choose<M: CardNumber, N: CardNumber>(
    makers: &[Card<M::Partner>],
    made: &[Card<N::Partner>],
    places: u32,
) -> Result<(M, N), Refusal>
    ensures answered { choice_of M.CardNumber.plain N.CardNumber.plain result ≡ chosen places makers.now made.now }
    ensures within { IfOk result (λ pair. Within (M.CardNumber.plain pair.0) (length makers.now) × Within (N.CardNumber.plain pair.1) places) }
{
    let (Some(maker), None, Some(lost)) = (
        active_card::<M>(makers),
        active_card::<N>(made),
        last_lost::<N>(made),
    ) else {
        return Err(Refusal::WrongCardStatus);
    };
    let number = lost.number();
    if number >= places as usize {
        return Err(Refusal::NoPlaceLeft);
    }
    Ok((maker, N::new(number + 1)))
}

// The active card of a role makes a card of the other role, which takes over its version and its register.
// Each of the tables has so many places. Cards and registers come one by one, not as a struct for each role: parts of a
// caller's `Tables` have a lifetime each, and such a struct has one. The makers' registers are only read. They come by `&mut`
// like the rest: it was tried, and the check has no rule for a `&` to one slice of a caller's `Tables` beside a `&mut` to another.
pub(crate) fn create<M: CardNumber<Partner = N>, N: CardNumber<Partner = M>, R: Register>(
    makers: &mut [Card<N>],
    maker_registers: &mut [R],
    made: &mut [Card<M>],
    made_registers: &mut [R],
    places: u32,
) -> Result<(), Refusal>
    requires { (length makers.old ≡ places) × ((length maker_registers.old ≡ places) × ((length made.old ≡ places) × (length made_registers.old ≡ places))) }
    ensures created { Creates M.CardNumber.plain N.CardNumber.plain (map R.Register.figures maker_registers.old) (chosen places makers.old made.old) (makers.old, made.old, map R.Register.figures made_registers.old) result (makers.new, made.new, map R.Register.figures made_registers.new) }
    ensures registers { OnErr result (made_registers.new ≡ made_registers.old) }
    ensures kept { maker_registers.new ≡ maker_registers.old }
{
    let (maker, new) = choose::<M, N>(makers, made, places)?;
    let from = maker.number() - 1;
    let to = new.number() - 1;
    made[to] = Card {
        status: Status::Active,
        partner: maker,
        version: makers[from].version,
    };
    makers[from].partner = new;
    made_registers[to] = maker_registers[from];
    Ok(())
}
