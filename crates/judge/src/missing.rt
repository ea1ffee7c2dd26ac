// 14: a required or partner property is missing.
ghost use Rattle.std.specs.Prelude.{◌≡◌, not};
ghost use Rattle.judge.specs.Missing.{partnered};
ghost use Rattle.judge.specs.ByLine.{wb_line, wv_line, mi_line, has_number, unpartnered_by_line, lacks_by_line};

use crate::properties::Properties;

// Whether a mesh's partner is missing: wb and wv come only together and with mi.
fn mesh_unpartnered(properties: &Properties<'_>) -> bool
    ensures { result
        ≡ not (partnered (has_number properties.now.numbers.now wb_line) (has_number properties.now.numbers.now wv_line)
        (has_number properties.now.numbers.now mi_line)) }
{
    let wb = properties.has(rules::places::MESH_WB);
    let wv = properties.has(rules::places::MESH_WV);
    if !wb & !wv {
        return false;
    }
    let mi = properties.has(rules::places::MESH_MI);
    !(wb & wv & mi)
}

// Whether a partner is missing.
fn unpartnered(kind: u32, properties: &Properties<'_>) -> bool
    ensures { result ≡ unpartnered_by_line kind properties.now.numbers.now }
{
    if kind != kinds::MESH {
        return false;
    }
    mesh_unpartnered(properties)
}

// Whether a required property or a partner is missing, by how many required ones are wanted and how many there are. As no name comes
// twice, as many as are wanted are all of them.
pub(crate) fn lacks(kind: u32, wanted: usize, required: usize, properties: &Properties<'_>) -> bool
    ensures { result ≡ lacks_by_line kind wanted required properties.now.numbers.now }
{
    (required != wanted) | unpartnered(kind, properties)
}
