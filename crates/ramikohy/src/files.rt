// The calls on binary STL files for C and Rust. The result is the status, 0 or the refusal's number; the counts go out
// through the last parameters, which a refusal leaves as they were.
ghost use Rattle.std.specs.Prelude.{◌≡◌, [], ◌∷◌};
ghost use Rattle.mesh_weld.specs.Call.{lent};
ghost use Rattle.mesh_weld.specs.Read.{read_left};
ghost use Rattle.stl_write.specs.Call.{lent as write_lent, write_left};
ghost use Rattle.ramikohy.specs.Calls.{called, called_by};

use mesh_weld::read::read_stl;
use stl_write::write_stl;

// Reads a file into a welded mesh.
#[unsafe(no_mangle)]
pub extern "C" fn ramikohy_read_stl(
    bytes: &[u8],
    scratch: &mut [u32],
    vertices: &mut [f64],
    indices: &mut [u32],
    vertex_count: &mut usize,
    index_count: &mut usize,
) -> u32
    ensures { called result (vertex_count.new ∷ index_count.new ∷ []) (lent scratch.new vertices.new indices.new)
        ≡ called_by (read_left bytes.now scratch.old vertices.old indices.old)
        (vertex_count.old ∷ index_count.old ∷ []) }
{
    match read_stl(bytes, scratch, vertices, indices) {
        Ok(answer) => {
            *vertex_count = answer.vertices;
            *index_count = answer.indices;
            0
        }
        Err(why) => refusal::number(why),
    }
}

// Writes a mesh as a file.
#[unsafe(no_mangle)]
pub extern "C" fn ramikohy_write_stl(
    vertices: &[f64],
    indices: &[u32],
    out: &mut [u8],
    byte_count: &mut usize,
) -> u32
    ensures { called result (byte_count.new ∷ []) (write_lent out.new)
        ≡ called_by (write_left vertices.now indices.now out.old) (byte_count.old ∷ []) }
{
    match write_stl(vertices, indices, out) {
        Ok(bytes) => {
            *byte_count = bytes;
            0
        }
        Err(why) => refusal::number(why),
    }
}
