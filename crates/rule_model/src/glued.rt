//! The edges along which the halves of a tile are glued.
ghost use Rattle.std.specs.Prelude.{◌≡◌, ◌↔◌, ℕ, ◌<◌, length, None, IfSome};
ghost use Rattle.rule_model.specs.Glue.{is_glued, IsGlueEdge};
ghost use Rattle.rule_model.specs.Usable.{IsUsable};
ghost use Rattle.rule_model.specs.Views.{rule_of};

use crate::rule::Rule;

impl Rule {
    /// Returns true if a type is a glue type or the mate of one.
    fn is_glued(&self, ty: usize) -> bool
        requires { IsUsable self.now }
        ensures { result ≡ is_glued (rule_of self.now) ty }
    {
        for i in 0..self.glue_count() {
            let glue = self.glue_type(i);
            if ty == glue || ty == self.mate(glue) {
                return true;
            }
        }
        false
    }

    /// Returns the first edge of a kind whose type is a glue type or the mate of one, or None if there is no
    /// such edge.
    pub fn first_glue_edge(&self, kind: usize) -> Option<u8>
        requires usable { IsUsable self.now }
        requires exists { kind < length (rule_of self.now).kinds }
        ensures none { (result ≡ None) ↔ ((e : ℕ) → ¬ IsGlueEdge (rule_of self.now) kind e) }
        ensures some { IfSome result (λ e. IsGlueEdge (rule_of self.now) kind e) }
        ensures first { IfSome result (λ e. (f : ℕ) → f < e → ¬ IsGlueEdge (rule_of self.now) kind f) }
    {
        for edge in 0..self.edge_count(kind) {
            if self.is_glued(self.edge_type(kind, edge)) {
                return Some(edge as u8);
            }
        }
        None
    }
}
