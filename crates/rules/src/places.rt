// Where some lines stand among those of their kind, by the letters of their kind and name: what other properties are held against is
// read by them.

pub const MESH_VP: usize = 1;

pub const MESH_WB: usize = 6;

pub const MESH_WV: usize = 7;

pub const MESH_MI: usize = 11;

pub const BLEND_SHAPE_VI: usize = 2;

pub const CURVE_KP: usize = 1;

pub const CURVE_KB: usize = 2;
