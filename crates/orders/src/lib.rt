//! Orders of cubes. From the weight and the starting place of two cubes alone an order says whether the first comes before the second.
#![tactic(auto)]

ghost use Rattle.std.specs.Prelude.{◌≡◌, Some, None, MatchResult};
ghost use Rattle.orders.specs.Rules.{Rule, Ordered, place_rule, light_rule, reversed, directed, either_rule, chosen_rule, order_of};
ghost use Rattle.std.proofs.Common.{rules};

pub mod search;

/// What an order reads of a cube: its weight, and the place at which it started.
#[derive(Clone, Copy)]
pub struct Rank {
    pub weight: usize,
    pub place: usize,
}

/// An order of cubes: of two with different places exactly one comes before the other, and before carries over from pair to pair.
/// Nothing is said of cubes with one place.
pub trait Order {
    /// Weight and place of the first, weight and place of the second: the first comes before the second.
    ghost before: { Self → Rule };

    /// Whether a cube of rank `a` comes before one of rank `b`.
    fn comes_before(&self, a: Rank, b: Rank) -> bool
        ensures { result ≡ before self.now a.weight a.place b.weight b.place };

    ghost ordered: { (o : Self) → Ordered (before o) };
}

/// The lower place first.
#[derive(Clone, Copy)]
pub struct Place;

impl Order for Place {
    ghost before = { λ _. place_rule };

    ghost ordered = { Prim.search rules };

    fn comes_before(&self, a: Rank, b: Rank) -> bool {
        a.place < b.place
    }
}

/// The lower weight first, then the lower place.
#[derive(Clone, Copy)]
pub struct Light;

impl Order for Light {
    ghost before = { λ _. light_rule };

    ghost ordered = { Prim.search rules };

    fn comes_before(&self, a: Rank, b: Rank) -> bool {
        a.weight < b.weight || a.weight == b.weight && a.place < b.place
    }
}

/// An order turned round.
#[derive(Clone, Copy, Drop)]
pub struct Reverse<O>(pub O);

impl<O: Order> Order for Reverse<O> {
    ghost before = { λ o. reversed (O.before o.0) };

    ghost ordered = { Prim.search rules };

    fn comes_before(&self, a: Rank, b: Rank) -> bool {
        self.0.comes_before(b, a)
    }
}

// An order that is lent is the same order.
impl<O: Order> Order for &O {
    ghost before = { λ o. O.before o.now };

    ghost ordered = { Prim.search rules };

    fn comes_before(&self, a: Rank, b: Rank) -> bool {
        (**self).comes_before(a, b)
    }
}

/// One of two orders.
#[derive(Clone, Copy, Drop)]
pub enum Either<A, B> {
    Left(A),
    Right(B),
}

impl<A: Order, B: Order> Order for Either<A, B> {
    ghost before = { λ o. either_rule A.before B.before o };

    ghost ordered = { Prim.search rules };

    fn comes_before(&self, a: Rank, b: Rank) -> bool {
        match self {
            Either::Left(left) => left.comes_before(a, b),
            Either::Right(right) => right.comes_before(a, b),
        }
    }
}

/// How an order that is lent is taken: as it is, or turned round.
// `Either<&O, Reverse<&O>>` would say the same in more words, and this is what callers of the searches name.
#[derive(Clone, Copy)]
pub enum Direction {
    Along,
    Against,
}

impl Direction {
    /// Whether the first cube comes before the second under the order taken so.
    pub fn comes_before<O: Order>(self, order: &O, a: Rank, b: Rank) -> bool
        ensures { result ≡ directed self (O.before order.now) a.weight a.place b.weight b.place }
    {
        match self {
            Direction::Along => order.comes_before(a, b),
            Direction::Against => Reverse(order).comes_before(a, b),
        }
    }
}

/// The orders that a byte names.
#[derive(Clone, Copy)]
pub enum Chosen {
    Place,
    PlaceReversed,
    Light,
    LightReversed,
}

impl Order for Chosen {
    ghost before = { chosen_rule };

    ghost ordered = { Prim.search rules };

    fn comes_before(&self, a: Rank, b: Rank) -> bool {
        match self {
            Chosen::Place => Place.comes_before(a, b),
            Chosen::PlaceReversed => Reverse(Place).comes_before(a, b),
            Chosen::Light => Light.comes_before(a, b),
            Chosen::LightReversed => Reverse(Light).comes_before(a, b),
        }
    }
}

/// A byte that names no order.
#[derive(Clone, Copy)]
pub struct NoOrder;

impl TryFrom<u8> for Chosen {
    type Error = NoOrder;

    ghost try_from_gives = { λ b r. MatchResult r (λ o. order_of b ≡ Some o) (λ _. order_of b ≡ None) };

    fn try_from(byte: u8) -> Result<Chosen, NoOrder> {
        match byte {
            0 => Ok(Chosen::Place),
            1 => Ok(Chosen::PlaceReversed),
            2 => Ok(Chosen::Light),
            3 => Ok(Chosen::LightReversed),
            _ => Err(NoOrder),
        }
    }
}

/// The order for an order byte, or none where the byte has no meaning: `TryFrom` for callers that want an `Option`.
pub fn order_of(byte: u8) -> Option<Chosen>
    ensures { result ≡ order_of byte }
{
    Chosen::try_from(byte).ok()
}
