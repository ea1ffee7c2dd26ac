// The constant tables: the rules of properties, and the sets of strings.

use crate::Held::{
    BoneNumber, Faces, Flag, Indices, Keys, Link, Nothing, OneOf, Vertices, Weights,
};
use crate::Types::{Any, Key, N, Only};
use crate::{Line, Set};
use kinds::{
    ANIMATION, BLEND_SHAPE, BONE, CONSTRAINT, CURVE, CURVE_MODE_OVERRIDE, FILE, IK_HANDLE,
    INSTANCE, MATERIAL, MESH, METADATA, MODEL, NOTIFICATION_TRACK,
};
use props::{BYTE, FLOAT, INT, LONG, STRING, V2, V3, V4};

// A name as it stands, or one that a number follows, `%d`.
const PLAIN: bool = false;

const NUMBERED: bool = true;

// A length of 1, or any.
const SINGLE: bool = false;

const ARRAY: bool = true;

const OPTIONAL: bool = false;

const REQUIRED: bool = true;

macro_rules! rule {
    ($kind:tt: $name:expr, $numbered:expr, $types:expr, $array:expr, $required:expr, $held:expr) => {
        Line {
            kind: $kind,
            name: $name,
            numbered: $numbered,
            types: $types,
            array: $array,
            required: $required,
            held: $held,
        }
    };
}

// A line says of one name on one kind: whether a number follows it; its types; whether it is an array; whether it is required; what it
// is held to.
pub const LINES: [Line; 81] = [
    rule!(MODEL: b"n", PLAIN, Only(STRING), SINGLE, OPTIONAL, Nothing),
    rule!(MESH: b"n", PLAIN, Only(STRING), SINGLE, OPTIONAL, Nothing),
    rule!(MESH: b"vp", PLAIN, Only(V3), ARRAY, REQUIRED, Nothing),
    rule!(MESH: b"vn", PLAIN, Only(V3), ARRAY, OPTIONAL, Vertices),
    rule!(MESH: b"vt", PLAIN, Only(V3), ARRAY, OPTIONAL, Vertices),
    rule!(MESH: b"c", NUMBERED, Only(INT), ARRAY, OPTIONAL, Vertices),
    rule!(MESH: b"u", NUMBERED, Only(V2), ARRAY, OPTIONAL, Vertices),
    rule!(MESH: b"wb", PLAIN, N, ARRAY, OPTIONAL, Weights),
    rule!(MESH: b"wv", PLAIN, Only(FLOAT), ARRAY, OPTIONAL, Weights),
    rule!(MESH: b"f", PLAIN, N, ARRAY, REQUIRED, Faces),
    rule!(MESH: b"cl", PLAIN, N, SINGLE, OPTIONAL, Nothing),
    rule!(MESH: b"ul", PLAIN, N, SINGLE, OPTIONAL, Nothing),
    rule!(MESH: b"mi", PLAIN, N, SINGLE, OPTIONAL, Nothing),
    rule!(MESH: b"sm", PLAIN, Only(STRING), SINGLE, OPTIONAL, OneOf(Set::Skinning)),
    rule!(MESH: b"m", PLAIN, Only(LONG), SINGLE, OPTIONAL, Link(MATERIAL)),
    rule!(BLEND_SHAPE: b"n", PLAIN, Only(STRING), SINGLE, REQUIRED, Nothing),
    rule!(BLEND_SHAPE: b"b", PLAIN, Only(LONG), SINGLE, REQUIRED, Link(MESH)),
    rule!(BLEND_SHAPE: b"vi", PLAIN, N, ARRAY, REQUIRED, Nothing),
    rule!(BLEND_SHAPE: b"vp", PLAIN, Only(V3), ARRAY, REQUIRED, Indices),
    rule!(BLEND_SHAPE: b"ts", PLAIN, Only(FLOAT), ARRAY, OPTIONAL, Nothing),
    rule!(BONE: b"n", PLAIN, Only(STRING), SINGLE, REQUIRED, Nothing),
    rule!(BONE: b"p", PLAIN, Only(INT), SINGLE, OPTIONAL, BoneNumber),
    rule!(BONE: b"ssc", PLAIN, Only(BYTE), SINGLE, OPTIONAL, Flag),
    rule!(BONE: b"lp", PLAIN, Only(V3), SINGLE, OPTIONAL, Nothing),
    rule!(BONE: b"wp", PLAIN, Only(V3), SINGLE, OPTIONAL, Nothing),
    rule!(BONE: b"s", PLAIN, Only(V3), SINGLE, OPTIONAL, Nothing),
    rule!(BONE: b"lr", PLAIN, Only(V4), SINGLE, OPTIONAL, Nothing),
    rule!(BONE: b"wr", PLAIN, Only(V4), SINGLE, OPTIONAL, Nothing),
    rule!(IK_HANDLE: b"n", PLAIN, Only(STRING), SINGLE, OPTIONAL, Nothing),
    rule!(IK_HANDLE: b"sb", PLAIN, Only(LONG), SINGLE, REQUIRED, Link(BONE)),
    rule!(IK_HANDLE: b"eb", PLAIN, Only(LONG), SINGLE, REQUIRED, Link(BONE)),
    rule!(IK_HANDLE: b"tb", PLAIN, Only(LONG), SINGLE, OPTIONAL, Link(BONE)),
    rule!(IK_HANDLE: b"pv", PLAIN, Only(LONG), SINGLE, OPTIONAL, Link(BONE)),
    rule!(IK_HANDLE: b"pb", PLAIN, Only(LONG), SINGLE, OPTIONAL, Link(BONE)),
    rule!(IK_HANDLE: b"tr", PLAIN, Only(BYTE), SINGLE, OPTIONAL, Flag),
    rule!(CONSTRAINT: b"n", PLAIN, Only(STRING), SINGLE, OPTIONAL, Nothing),
    rule!(CONSTRAINT: b"ct", PLAIN, Only(STRING), SINGLE, REQUIRED, OneOf(Set::Constraints)),
    rule!(CONSTRAINT: b"cb", PLAIN, Only(LONG), SINGLE, REQUIRED, Link(BONE)),
    rule!(CONSTRAINT: b"tb", PLAIN, Only(LONG), SINGLE, REQUIRED, Link(BONE)),
    rule!(CONSTRAINT: b"mo", PLAIN, Only(BYTE), SINGLE, OPTIONAL, Flag),
    rule!(CONSTRAINT: b"sx", PLAIN, Only(BYTE), SINGLE, OPTIONAL, Flag),
    rule!(CONSTRAINT: b"sy", PLAIN, Only(BYTE), SINGLE, OPTIONAL, Flag),
    rule!(CONSTRAINT: b"sz", PLAIN, Only(BYTE), SINGLE, OPTIONAL, Flag),
    rule!(MATERIAL: b"n", PLAIN, Only(STRING), SINGLE, REQUIRED, Nothing),
    rule!(MATERIAL: b"t", PLAIN, Only(STRING), SINGLE, REQUIRED, Nothing),
    rule!(MATERIAL: b"albedo", PLAIN, Only(LONG), SINGLE, OPTIONAL, Link(FILE)),
    rule!(MATERIAL: b"diffuse", PLAIN, Only(LONG), SINGLE, OPTIONAL, Link(FILE)),
    rule!(MATERIAL: b"normal", PLAIN, Only(LONG), SINGLE, OPTIONAL, Link(FILE)),
    rule!(MATERIAL: b"specular", PLAIN, Only(LONG), SINGLE, OPTIONAL, Link(FILE)),
    rule!(MATERIAL: b"emissive", PLAIN, Only(LONG), SINGLE, OPTIONAL, Link(FILE)),
    rule!(MATERIAL: b"gloss", PLAIN, Only(LONG), SINGLE, OPTIONAL, Link(FILE)),
    rule!(MATERIAL: b"roughness", PLAIN, Only(LONG), SINGLE, OPTIONAL, Link(FILE)),
    rule!(MATERIAL: b"ao", PLAIN, Only(LONG), SINGLE, OPTIONAL, Link(FILE)),
    rule!(MATERIAL: b"cavity", PLAIN, Only(LONG), SINGLE, OPTIONAL, Link(FILE)),
    rule!(MATERIAL: b"aniso", PLAIN, Only(LONG), SINGLE, OPTIONAL, Link(FILE)),
    rule!(MATERIAL: b"extra", NUMBERED, Only(LONG), SINGLE, OPTIONAL, Link(FILE)),
    rule!(FILE: b"p", PLAIN, Only(STRING), SINGLE, REQUIRED, Nothing),
    rule!(ANIMATION: b"n", PLAIN, Only(STRING), SINGLE, OPTIONAL, Nothing),
    rule!(ANIMATION: b"fr", PLAIN, Only(FLOAT), SINGLE, REQUIRED, Nothing),
    rule!(ANIMATION: b"lo", PLAIN, Only(BYTE), SINGLE, OPTIONAL, Flag),
    rule!(CURVE: b"nn", PLAIN, Only(STRING), SINGLE, REQUIRED, Nothing),
    rule!(CURVE: b"kp", PLAIN, Only(STRING), SINGLE, REQUIRED, OneOf(Set::KeyProperties)),
    rule!(CURVE: b"kb", PLAIN, N, ARRAY, REQUIRED, Nothing),
    rule!(CURVE: b"kv", PLAIN, Key, ARRAY, REQUIRED, Keys),
    rule!(CURVE: b"m", PLAIN, Only(STRING), SINGLE, REQUIRED, OneOf(Set::Modes)),
    rule!(CURVE: b"ab", PLAIN, Only(FLOAT), SINGLE, OPTIONAL, Nothing),
    rule!(CURVE_MODE_OVERRIDE: b"nn", PLAIN, Only(STRING), SINGLE, REQUIRED, Nothing),
    rule!(CURVE_MODE_OVERRIDE: b"m", PLAIN, Only(STRING), SINGLE, REQUIRED, OneOf(Set::Modes)),
    rule!(CURVE_MODE_OVERRIDE: b"ot", PLAIN, Only(BYTE), SINGLE, OPTIONAL, Flag),
    rule!(CURVE_MODE_OVERRIDE: b"or", PLAIN, Only(BYTE), SINGLE, OPTIONAL, Flag),
    rule!(CURVE_MODE_OVERRIDE: b"os", PLAIN, Only(BYTE), SINGLE, OPTIONAL, Flag),
    rule!(NOTIFICATION_TRACK: b"n", PLAIN, Only(STRING), SINGLE, REQUIRED, Nothing),
    rule!(NOTIFICATION_TRACK: b"kb", PLAIN, N, ARRAY, REQUIRED, Nothing),
    rule!(INSTANCE: b"n", PLAIN, Only(STRING), SINGLE, OPTIONAL, Nothing),
    rule!(INSTANCE: b"rf", PLAIN, Only(LONG), SINGLE, REQUIRED, Link(FILE)),
    rule!(INSTANCE: b"p", PLAIN, Only(V3), SINGLE, REQUIRED, Nothing),
    rule!(INSTANCE: b"r", PLAIN, Only(V4), SINGLE, REQUIRED, Nothing),
    rule!(INSTANCE: b"s", PLAIN, Only(V3), SINGLE, REQUIRED, Nothing),
    rule!(METADATA: b"a", PLAIN, Only(STRING), SINGLE, OPTIONAL, Nothing),
    rule!(METADATA: b"s", PLAIN, Only(STRING), SINGLE, OPTIONAL, Nothing),
    rule!(METADATA: b"up", PLAIN, Only(STRING), SINGLE, OPTIONAL, OneOf(Set::Axes)),
];

// The line of the names that are not listed: any type and any length.
pub const FREE: Line = rule!(0: b"", PLAIN, Any, ARRAY, OPTIONAL, Nothing);

// The sets of strings.
pub const SKINNING: [&[u8]; 2] = [b"linear", b"quaternion"];

pub const CONSTRAINTS: [&[u8]; 3] = [b"pt", b"or", b"sc"];

pub const KEY_PROPERTIES: [&[u8]; 9] = [
    b"rq", b"tx", b"ty", b"tz", b"sx", b"sy", b"sz", b"bs", b"vb",
];

pub const MODES: [&[u8]; 3] = [b"additive", b"absolute", b"relative"];

pub const AXES: [&[u8]; 3] = [b"x", b"y", b"z"];
