//! Searches: the first card under an order, and the lightest part.
ghost use Rattle.std.specs.Prelude.{◌≡◌, ◌<◌, Bool, length, slice_index};
ghost use Rattle.std.specs.Fn.{FnReturnsAt};
ghost use Rattle.table.specs.declared.card.Card.{Card};
ghost use Rattle.orders.specs.Rules.{directed};
ghost use Rattle.orders.specs.Searches.{waits, untried, first_of, IsFirstOf, lightest, IsLightest};

use crate::{Direction, Light, Order, Rank};
use table::card::Card;

impl From<Card> for Rank {
    ghost from_gives = { λ c r. (r.weight ≡ c.weight) × (r.place ≡ c.place) };

    fn from(card: Card) -> Rank {
        Rank {
            weight: card.weight,
            place: card.place,
        }
    }
}

// Where the first card stands that passes the test, for any test that the closure computes: the best so far against the next.
fn first_where<O: Order, F: Fn(&Card) -> bool>(
    order: &O,
    along: Direction,
    cards: &[Card],
    test: F,
) -> Option<usize>
    requires { F.IsAlwaysCallable test }
    ensures { (passes : Card → Bool) → ((c : Card) (b : Bool) → FnReturnsAt F.Fn test c b → b ≡ passes c) → result ≡ first_of passes (directed along (O.before order.now)) cards.now (length cards.now) }
{
    let mut found = None;
    for (i, card) in cards.iter().enumerate() {
        if test(card) {
            found = match found {
                None => Some(i),
                Some(b) => {
                    if along.comes_before(order, Rank::from(*card), Rank::from(cards[b])) {
                        Some(i)
                    } else {
                        Some(b)
                    }
                }
            };
        }
    }
    found
}

/// Where the first of the cards stands that are not taken.
pub fn first_waiting<O: Order>(order: &O, along: Direction, cards: &[Card]) -> Option<usize>
    ensures value { result ≡ first_of waits (directed along (O.before order.now)) cards.now (length cards.now) }
    ensures first { IsFirstOf waits (directed along (O.before order.now)) cards.now (length cards.now) result }
{
    first_where(order, along, cards, |card| !card.taken)
}

/// Where the first of the cards stands that are neither taken nor tried.
pub fn first_untried<O: Order>(order: &O, along: Direction, cards: &[Card]) -> Option<usize>
    ensures value { result ≡ first_of untried (directed along (O.before order.now)) cards.now (length cards.now) }
    ensures first { IsFirstOf untried (directed along (O.before order.now)) cards.now (length cards.now) result }
{
    first_where(order, along, cards, |card| !card.taken && !card.tried)
}

// What the order reads of a part: its weight and its number.
fn rank_of_part(weights: &[usize], k: usize) -> Rank
    requires { k < length weights.now }
    ensures weight { result.weight ≡ slice_index weights.now k }
    ensures place { result.place ≡ k }
{
    Rank {
        weight: weights[k],
        place: k,
    }
}

/// The lightest of the parts that are not taken, the lower number first.
// Not `first_where`: the weights and the marks lie in two lists, and there is no list of what it looks at.
pub fn lightest_part(weights: &[usize], taken: &[bool]) -> Option<usize>
    requires { length weights.now ≡ length taken.now }
    ensures value { result ≡ lightest (length taken.now) (λ k. slice_index weights.now k) taken.now }
    ensures first { IsLightest (length taken.now) (λ k. slice_index weights.now k) taken.now result }
{
    let mut found = None;
    for (k, taken) in taken.iter().enumerate() {
        if !*taken {
            found = match found {
                None => Some(k),
                Some(b) => {
                    if Light.comes_before(rank_of_part(weights, k), rank_of_part(weights, b)) {
                        Some(k)
                    } else {
                        Some(b)
                    }
                }
            };
        }
    }
    found
}
