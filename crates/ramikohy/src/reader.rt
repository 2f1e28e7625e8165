// The reader over a list of strokes for C and Rust: how many strokes are left from the i-th on, and where the i-th lies among the
// caller's own points.
ghost use Rattle.std.specs.Prelude.{◌≡◌, length};
ghost use Rattle.path_reader.specs.Reading.{stroke_at, first_at, left_at};

// How many strokes there are from the i-th on: 0 says that none is left.
#[unsafe(no_mangle)]
pub extern "C" fn ramikohy_strokes_left(starts: &[u32], i: usize) -> usize
    ensures { result ≡ left_at starts.now i }
{
    path_reader::left_at(starts, i)
}

// The place of stroke i's first point.
#[unsafe(no_mangle)]
pub extern "C" fn ramikohy_stroke_first(points: &[u32], starts: &[u32], i: usize) -> usize
    ensures { result ≡ first_at points.now starts.now i }
{
    path_reader::first_at(points, starts, i)
}

// How many points stroke i has, 0 where it is empty or past the table.
#[unsafe(no_mangle)]
pub extern "C" fn ramikohy_stroke_length<'a>(
    points: &'a [u32],
    starts: &'a [u32],
    i: usize,
) -> usize
    ensures { result ≡ length (stroke_at points.now starts.now i) }
{
    path_reader::stroke_at(points, starts, i).len()
}
