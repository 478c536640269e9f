// Comparing two vertices.
ghost use Rattle.std.specs.Prelude.{◌≡◌, ◌↔◌, IsTrue};
ghost use Rattle.std.specs.Cmp.{and_per, int_eq_equiv, nat_eq_equiv, on_per, partial_equiv_from_equiv};
ghost use Rattle.std.specs.Cmp.Lexicographic.{lists_per};
ghost use Rattle.grid.specs.Vertices.{vertex_eq};

use super::Vertex;

// Written out: a derived `==` could not promise its callers the clause `exact`.
impl PartialEq for Vertex {
    ghost eq = { vertex_eq };

    ghost laws = { and_per (on_per (λ v. v.d) (partial_equiv_from_equiv nat_eq_equiv)) (on_per (λ v. v.at) (lists_per (partial_equiv_from_equiv int_eq_equiv))) };

    #[tactic(auto, using(crate::proofs::Vertexes::told_exact))]
    fn eq(&self, other: &Vertex) -> bool
        ensures tells { result ≡ vertex_eq self.now other.now }
        ensures exact { IsTrue result ↔ (self.now ≡ other.now) }
    {
        self.d == other.d && self.at == other.at
    }
}
