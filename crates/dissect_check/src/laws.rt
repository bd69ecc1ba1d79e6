//! Laws of what no clause refuses, of editions, orders and lists alone.
ghost use Rattle.std.specs.Prelude.{◌≡◌, ◌↔◌, None};
ghost use Rattle.theory_substitution.specs.Rule.{Rule, child_kinds};
ghost use Rattle.theory_substitution.specs.RuleParts.{map_rule};
ghost use Rattle.theory_edge_to_edge.specs.Limited.{WithinLimits};
ghost use Rattle.theory_edge_to_edge.specs.EdgeToEdge.{IsEdgeToEdge};
ghost use Rattle.cyclo_points.specs.declared.order.Order.{Order};
ghost use Rattle.cyclo_points.specs.declared.point.Point.{Point};
ghost use Rattle.cyclo_points.specs.Order.{points_of, is_refused};
ghost use Rattle.cyclo_points.specs.Point.{point_in};
ghost use Rattle.tile_shape.specs.Usable.{AreUsable};
ghost use Rattle.rule_model.specs.declared.edition.Edition.{Edition};
ghost use Rattle.rule_model.specs.Small.{is_small};
ghost use Rattle.rule_model.specs.Views.{as_edition};
ghost use Rattle.dissect_check.specs.FirstFault.{fault_of_lists};

/// States that the check finds no fault of an edition, an order and lists if and only if all ten clauses
/// hold. They are the limits of counts and numbers, and the nine by which the children fit edge to edge.
pub fn clauses_law()
    ensures { (edition : Edition) (o : Order) (l : Rule Point) → (fault_of_lists edition o l ≡ None)
        ↔ (WithinLimits (points_of o).order (is_small o) l
        × IsEdgeToEdge (points_of o) (as_edition edition) (is_refused o) (map_rule (point_in o) l)) }
{}

/// States that the child kinds of lists that no clause refuses are usable for addresses.
pub fn accepted_children_law()
    ensures { (edition : Edition) (o : Order) (l : Rule Point) → fault_of_lists edition o l ≡ None
        → AreUsable (child_kinds (map_rule (point_in o) l)) }
{}
