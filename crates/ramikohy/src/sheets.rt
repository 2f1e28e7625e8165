// Sheets for C and Rust. The result is the status, 0 or the refusal's number; the counts go out through the last parameters,
// which a refusal leaves as they were.
ghost use Rattle.std.specs.Prelude.{◌≡◌, [], ◌∷◌};
ghost use Rattle.sheet_write.specs.Call.{lent as write_lent, write_left};
ghost use Rattle.sheet_read.specs.Call.{lent as read_lent, read_left};
ghost use Rattle.ramikohy.specs.Calls.{called, called_by};

// Writes strokes of vertex numbers as a sheet.
#[unsafe(no_mangle)]
pub extern "C" fn ramikohy_write_sheet(
    mode: u32,
    vertices: u32,
    numbers: &[u32],
    starts: &[u32],
    out: &mut [u8],
    byte_count: &mut usize,
) -> u32
    ensures { called result (byte_count.new ∷ []) (write_lent out.new)
        ≡ called_by (write_left mode vertices numbers.now starts.now out.old) (byte_count.old ∷ []) }
{
    match sheet_write::write_sheet(mode, vertices, numbers, starts, out) {
        Ok(bytes) => {
            *byte_count = bytes;
            0
        }
        Err(why) => refusal::number(why),
    }
}

// Reads a sheet.
#[unsafe(no_mangle)]
pub extern "C" fn ramikohy_read_sheet(
    bytes: &[u8],
    out_numbers: &mut [u32],
    out_starts: &mut [u32],
    point_count: &mut usize,
    start_count: &mut usize,
    mode: &mut u32,
    vertices: &mut u32,
) -> u32
    ensures { called result (point_count.new ∷ start_count.new ∷ mode.new ∷ vertices.new ∷ []) (read_lent out_numbers.new out_starts.new)
        ≡ called_by (read_left bytes.now out_numbers.old out_starts.old)
        (point_count.old ∷ start_count.old ∷ mode.old ∷ vertices.old ∷ []) }
{
    match sheet_read::read_sheet(bytes, out_numbers, out_starts) {
        Ok(answer) => {
            *point_count = answer.points;
            *start_count = answer.starts;
            *mode = answer.mode;
            *vertices = answer.vertices;
            0
        }
        Err(why) => refusal::number(why),
    }
}
