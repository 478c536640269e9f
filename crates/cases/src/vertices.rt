use grid::Vertex;
use std::test::Fail;

#[test]
fn a_vertex_has_2_to_6_coordinates(rt: HostRuntime) -> Result<(), Fail> {
    assert_eq!(rt; Vertex::new(&[]), None);
    assert_eq!(rt; Vertex::new(&[1]), None);
    assert_eq!(rt; Vertex::new(&[1, 2, 3, 4, 5, 6, 7]), None);
    let vertex = Vertex::new(&[-3, 4]).ok_or("no vertex")?;
    assert_eq!(rt; vertex.d(), 2);
    assert_eq!(rt; vertex.coordinates(), &[-3, 4][..]);
    Ok(())
}

#[test]
fn a_vertex_equals_itself_alone(rt: HostRuntime) {
    assert_eq!(rt; Vertex::new(&[1, 2]), Vertex::new(&[1, 2]));
    assert_ne!(rt; Vertex::new(&[1, 2]), Vertex::new(&[2, 1]));
    assert_ne!(rt; Vertex::new(&[1, 2]), Vertex::new(&[1, 2, 0]));
}

#[test]
fn a_vertex_prints_with_spaces(rt: HostRuntime) -> Result<(), Fail> {
    let vertex = Vertex::new(&[-3, 0, 2147483647]).ok_or("no vertex")?;
    let text = format!(in rt.alloc(); "{vertex}")?;
    assert_eq!(rt; text.as_str(), "-3 0 2147483647");
    Ok(())
}
