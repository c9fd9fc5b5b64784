//! What is decided, and the steps that decide it.
use crate::forcing::Tests;
use dip_names::Prov;

/// What is decided of the unit in a province.
#[derive(Clone, Copy, PartialEq, Eq, Debug)]
pub enum Decision {
    /// The move of the unit in this province succeeds.
    Move(Prov),
    /// Its move by convoy has a path: a chain of fleets that carry it.
    Path(Prov),
    /// Its support is given, since no attack cuts it.
    Support(Prov),
}

/// A step that gives decisions their values, by the steps before it.
#[derive(Drop, Debug)]
pub enum Step {
    /// The decision has one value, whatever the open ones come to.
    Forced(Decision),
    /// Each of these moves succeeds where the next one does, and the last where the first one does: all succeed.
    Circle(Vec<Prov>),
    /// A paradox of these moves by convoy, which have no path then.
    Knot(Vec<Prov>),
}

/// What came of the orders of a movement: provinces of units, in the order of their codes, and why.
#[derive(Drop, Debug)]
pub struct Resolution {
    /// The units whose move succeeds, by their provinces.
    pub moves: Vec<Prov>,
    /// The units whose move by convoy has a path.
    pub paths: Vec<Prov>,
    /// The units whose support is given.
    pub supports: Vec<Prov>,
    /// The units whose move by convoy a knot broke.
    pub broken: Vec<Prov>,
    /// Steps that give each decision its value, each by those before it.
    pub steps: Vec<Step>,
    /// How often the equation of an open decision was tested.
    pub tests: Tests,
}
