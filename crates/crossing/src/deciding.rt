// The class of a matrix, by the signs of its determinants.
ghost use Rattle.std.specs.Prelude.{◌≡◌, IfSome};
ghost use Rattle.crossing.specs.Determinants.{by_vertex, class_answer, class_of};
ghost use Rattle.crossing.specs.Laws.{ClassLaws};
ghost use Rattle.crossing.specs.Weights.{Given};

use crate::classes::Class;
use crate::matrices::VertexValues;
use crate::signs::Signs;

// The class of k values at each of k + 1 vertices, written vertex by vertex. None if k is not 1 to 3, or if there are more values
// or fewer.
pub fn class_of(k: u8, values: &[i16]) -> Option<Class>
    ensures answer { result ≡ class_answer k values.now }
    ensures weights { IfSome result (Given k (by_vertex k values.now)) }
{
    Some(VertexValues::new(k, values)?.class())
}

impl VertexValues {
    #[inline(always)]
    pub(crate) fn class(&self) -> Class
        ensures is { result ≡ class_of self.now.k self.now.at }
        ensures laws { ClassLaws }
    {
        let signed = self.signed_determinants();
        Signs::of(&signed[..=usize::from(self.k)]).class()
    }
}
