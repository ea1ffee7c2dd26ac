// 15: any other property rule broken; and what the properties count.
ghost use Rattle.std.specs.Prelude.{◌≡◌, ◌≤◌, ◌<◌, ◌^◌, map, length, ◌≢◌, IfOk};
ghost use Rattle.base.specs.Limits.{most_properties};
ghost use Rattle.le.specs.Le.{number_at};
ghost use Rattle.faces.specs.Faces.{width_of};
ghost use Rattle.kinds.specs.Kinds.{mesh, blend_shape, curve};
ghost use Rattle.rules.specs.Packing.{types_from, held_from, lines_from};
ghost use Rattle.judge.specs.Properties.{line_number, rest_at};
ghost use Rattle.judge.specs.ByLine.{types_by_line, beside_by_line};
ghost use Rattle.judge.specs.Valued.{whole, sole, signed, parent_ok, fault_of, fault_told, faces_at, face_fault};
ghost use Rattle.judge.specs.Judge.{judged_told, Bounded};
ghost use Rattle.judge.specs.Private.{StartsWithin, beside_from, measures_none, kept_by, kept_told, valued_to};

use crate::Judged;
use crate::properties::{Properties, value_at};
use base::{Reason, Refusal};
use faces::Counted;
use rules::{Held, Line, Types};

// What a property is held against, in numbers: a mesh's number of vertices, and mi times that; the lengths of vi and of kb, and
// the types that kp wants; and the number of Bones beside the node.
#[derive(Clone, Copy)]
struct Measures {
    vertices: u32,
    weights: u64,
    indices: u32,
    keys: u32,
    types: Types,
    bones: u32,
}

impl Measures {
    // At a kind whose properties are held against the Bones alone.
    fn none(bones: u32) -> Measures
        ensures { result ≡ measures_none bones }
    {
        Measures {
            vertices: 0,
            weights: 0,
            indices: 0,
            keys: 0,
            types: Types::Any,
            bones,
        }
    }
}

// The types that kp wants of kv: v4 for rq, N for vb, else f.
fn types_of(properties: &Properties<'_>) -> Types
    ensures { types_from result ≡ types_by_line properties.now.body.now properties.now.starts.now properties.now.numbers.now }
{
    let Some(at) = properties.place(rules::places::CURVE_KP) else {
        return Types::Only(props::FLOAT);
    };
    let string = props::rest_at(properties.body, at);
    if rules::is_text(string, b"rq") {
        return Types::Only(props::V4);
    }
    if rules::is_text(string, b"vb") {
        return Types::N;
    }
    Types::Only(props::FLOAT)
}

fn mesh_measures(properties: &Properties<'_>, bones: u32) -> Measures
    ensures { beside_from result ≡ beside_by_line mesh properties.now.body.now properties.now.starts.now properties.now.numbers.now bones }
{
    let vertices = properties.read(rules::places::MESH_VP).length;
    let weights = properties.read(rules::places::MESH_MI).value as u64 * vertices as u64;
    Measures {
        vertices,
        weights,
        ..Measures::none(bones)
    }
}

fn blend_shape_measures(properties: &Properties<'_>, bones: u32) -> Measures
    ensures { beside_from result ≡ beside_by_line blend_shape properties.now.body.now properties.now.starts.now properties.now.numbers.now bones }
{
    Measures {
        indices: properties.read(rules::places::BLEND_SHAPE_VI).length,
        ..Measures::none(bones)
    }
}

fn curve_measures(properties: &Properties<'_>, bones: u32) -> Measures
    ensures { beside_from result ≡ beside_by_line curve properties.now.body.now properties.now.starts.now properties.now.numbers.now bones }
{
    Measures {
        keys: properties.read(rules::places::CURVE_KB).length,
        types: types_of(properties),
        ..Measures::none(bones)
    }
}

// What the properties of a node are held against. What is of one kind stands apart, so that nothing is stored for it at another.
fn measures_of(kind: u32, properties: &Properties<'_>, bones: u32) -> Measures
    ensures { beside_from result ≡ beside_by_line kind properties.now.body.now properties.now.starts.now properties.now.numbers.now bones }
{
    if kind == kinds::MESH {
        return mesh_measures(properties, bones);
    }
    if kind == kinds::BLEND_SHAPE {
        return blend_shape_measures(properties, bones);
    }
    if kind == kinds::CURVE {
        return curve_measures(properties, bones);
    }
    Measures::none(bones)
}

// What a property breaks: a rule of its length, its string or its type; or its first bad element.
#[derive(Clone, Copy, Debug, PartialEq, Eq)]
pub enum Fault {
    Whole,
    Element(u64),
}

fn whole(ok: bool) -> Result<(), Fault>
    ensures { fault_told result ≡ whole ok }
{
    if ok { Ok(()) } else { Err(Fault::Whole) }
}

fn sole(ok: bool) -> Result<(), Fault>
    ensures { fault_told result ≡ sole ok }
{
    if ok { Ok(()) } else { Err(Fault::Element(0)) }
}

// Whether p, read as signed, is -1 or the number of a Bone.
fn is_parent(p: u32, bones: u32) -> bool
    ensures { result ≡ parent_ok (signed p) bones }
{
    (p == 0xFFFF_FFFF) | ((p < 0x8000_0000) & (p < bones))
}

fn is_bone(body: &[u8], at: usize, bones: u32) -> bool
    ensures { result ≡ parent_ok (signed (number_at 4 (rest_at body.now at) 0)) bones }
{
    is_parent(le::read::<u32>(props::rest_at(body, at), 0), bones)
}

// What the property breaks of what its line holds it to; faces are judged apart. Nothing is read where the line holds it to
// nothing, or to a link.
#[tactic(auto, unfolding(crate::specs::Valued::fault_of))]
fn check(held: Held, body: &[u8], at: usize, m: Measures) -> Result<(), Fault>
    requires { held ≢ Held.Faces }
    ensures { fault_told result ≡ fault_of (held_from held) body.now at (beside_from m) }
{
    if let Held::Nothing | Held::Link(_) = held {
        return Ok(());
    }
    let header = props::header_at(body, at);
    let elements = header.length;
    match held {
        Held::Flag => sole(value_at(body, at, header.code) <= 1),
        Held::OneOf(set) => whole(rules::one_of(set, props::rest_at(body, at))),
        Held::Vertices => whole(elements == m.vertices),
        Held::Weights => whole(elements as u64 == m.weights),
        Held::Indices => whole(elements == m.indices),
        Held::Keys => whole((elements == m.keys) & rules::takes(m.types, header.code)),
        Held::BoneNumber => sole(is_bone(body, at, m.bones)),
        Held::Nothing | Held::Link(_) | Held::Faces => Ok(()),
    }
}

// The faces of the property at a place, which is held to be faces.
fn faces_at(body: &[u8], at: usize, vertices: u32) -> Result<Counted, Fault>
    ensures kept { kept_told result ≡ kept_by (face_fault body.now at vertices) (faces_at body.now at) }
    ensures few { IfOk result (λ counted. (counted.faces.0 < 2 ^ 32) × (counted.degenerate < 2 ^ 32)) }
{
    let header = props::header_at(body, at);
    let elements = header.length;
    if elements % 3 != 0 {
        return Err(Fault::Whole);
    }
    faces::scan(
        props::rest_at(body, at),
        header.code,
        elements / 3,
        vertices,
    )
    .map_err(|first| Fault::Element(first.0))
}

// The first property that breaks what its line holds it to, or what they count.
pub(crate) fn valued(
    kind: u32,
    lines: &[Line],
    properties: &Properties<'_>,
    bones: u32,
) -> Result<Judged, Refusal>
    requires count { length properties.now.starts.now ≤ most_properties }
    requires numbers { properties.now.numbers.now ≡ map (line_number (lines_from lines.now) properties.now.body.now) properties.now.starts.now }
    requires places { StartsWithin properties.now.body.now properties.now.starts.now }
    ensures result { judged_told result
        ≡ valued_to (lines_from lines.now) properties.now.body.now
        (beside_by_line kind properties.now.body.now properties.now.starts.now properties.now.numbers.now bones) properties.now.starts.now }
    ensures bounds { Bounded (judged_told result) (length properties.now.body.now) }
{
    let Properties {
        body,
        starts,
        numbers,
    } = *properties;
    let m = measures_of(kind, properties, bones);
    let mut faces: u64 = 0;
    let mut degenerate: u64 = 0;
    let mut links: u32 = 0;
    for (i, at) in starts.iter().enumerate() {
        let at = *at;
        let line = rules::line_in(lines, numbers[i]);
        let broken = Reason::BadValue.at(24 + at);
        match line.held {
            Held::Faces => {
                let counted = faces_at(body, at, m.vertices).map_err(|_| broken)?;
                faces += counted.faces.0;
                degenerate += counted.degenerate;
            }
            Held::Link(_) => links += 1,
            held => check(held, body, at, m).map_err(|_| broken)?,
        }
    }
    Ok(Judged {
        faces: faces::Faces(faces),
        degenerate,
        links,
    })
}
