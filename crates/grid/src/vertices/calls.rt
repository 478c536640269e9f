// Making a vertex and reading it.
ghost use Rattle.std.specs.Prelude.{◌≡◌, length};
ghost use Rattle.std.specs.Option.{option_map};
ghost use Rattle.grid.specs.Vertices.{coordinates_of, vertex_answer, VertexEqExact};

use super::Vertex;
use crate::padding::padded;

impl Vertex {
    // The vertex with these coordinates, of which there are 2 to 6.
    #[tactic(auto, using(crate::proofs::Vertexes::vertex_eq_exact))]
    pub fn new(numbers: &[i32]) -> Option<Vertex>
        ensures answer { option_map coordinates_of result ≡ vertex_answer numbers.now }
        ensures equality { VertexEqExact }
    {
        if !(2..=6).contains(&numbers.len()) {
            return None;
        }
        Some(Vertex {
            d: numbers.len() as u8,
            at: padded(numbers, 0),
        })
    }

    // How many axes the vertex has.
    pub fn d(&self) -> u8
        ensures { result ≡ length (coordinates_of self.now) }
    {
        self.d
    }

    pub fn coordinates(&self) -> &[i32]
        ensures { result.now ≡ coordinates_of self.now }
    {
        &self.at[..usize::from(self.d)]
    }
}
