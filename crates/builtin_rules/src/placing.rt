//! The places of the tiles of built-in rules, from the constants.
ghost use Rattle.std.specs.Prelude.{◌≡◌, ◌<◌, length, get_or};
ghost use Rattle.theory_substitution.specs.Rule.{Child as TheChild, kind_of, children_of};
ghost use Rattle.cyclo_points.specs.declared.point.Point.{Point};
ghost use Rattle.cyclo_points.specs.Order.{points_of};
ghost use Rattle.rule_model.specs.Tiling.{tiling_listed};
ghost use Rattle.rule_model.specs.Usable.{IsSmall};
ghost use Rattle.rule_model.specs.Views.{as_child};
ghost use Rattle.builtin_rules.specs.Named.{named};
ghost use Rattle.builtin_rules.specs.Numbers.{fixed_kind};
ghost use Rattle.builtin_rules.specs.Written.{written_kind};

use crate::builtin::numbers;
use crate::kind_numbers::KindNumbers;
use crate::name::Name;
use crate::rule_numbers::RuleNumbers;
use cyclo_points::order::Order;
use cyclo_points::point::Point;
use rule_model::child::Child;
use rule_model::placing::Placing;
use std::marker::Model;

/// The numbers of a built-in rule that place its tiles. It needs no memory, because the numbers are
/// constants. Contracts see it as the definition of the rule.
#[derive(Drop)]
pub struct NamedPlacing {
    numbers: RuleNumbers,
}

impl Model for NamedPlacing {
    ghost use Rattle.rule_model.specs.Tiling.{ListedRule};
    ghost use Rattle.builtin_rules.specs.Numbers.{fixed_rule};
    ghost use Rattle.builtin_rules.specs.Placeable.{IsPlaceable};
    ghost use Rattle.builtin_rules.specs.Written.{written};

    ghost Value = { ListedRule };

    ghost view = { λ p. written (fixed_rule p.numbers) };

    ghost invariant = { λ p. IsPlaceable (written (fixed_rule p.numbers)) };
}

impl NamedPlacing {
    ghost use Rattle.builtin_rules.specs.Placeable.{IsPlaceable};

    /// Returns the rule of this name.
    pub fn of(name: Name) -> NamedPlacing
        ensures { result ≡ named name }
    {
        NamedPlacing {
            numbers: numbers(name),
        }
    }

    /// Returns the numbers of a kind.
    fn row(&self, kind: u8) -> &KindNumbers
        requires { kind < length self.now.rule.kinds }
        ensures lists { written_kind (fixed_kind result.now) ≡ kind_of self.now.rule kind }
        ensures placeable { IsPlaceable self.now }
    {
        &self.numbers.kinds[usize::from(kind)]
    }

    /// Returns a child of a kind, from the constants.
    fn listed_child(&self, kind: u8, child: u8) -> Child
        requires kind_in { kind < length self.now.rule.kinds }
        requires child_in { child < length (children_of self.now.rule kind) }
        ensures lists { (none : TheChild Point) → as_child result ≡ get_or (children_of self.now.rule kind)
            child none }
        ensures small { IsSmall self.now.order result.shift }
        ensures turn_below { result.turn < (points_of self.now.order).order }
    {
        self.row(kind).children[usize::from(child)]
    }
}

impl Placing for NamedPlacing {
    ghost tiling = { tiling_listed };

    fn order(&self) -> Order {
        self.numbers.order
    }

    fn factor(&self) -> Point {
        self.numbers.factor
    }

    fn child(&self, kind: u8, child: u8) -> Child {
        self.listed_child(kind, child)
    }
}
