// The calls on strokes for C and Rust. The result is the status, 0 or the refusal's number; the counts go out
// through the last parameters, which a refusal leaves as they were.
ghost use Rattle.std.specs.Prelude.{◌≡◌, [], ◌∷◌};
ghost use Rattle.path.specs.Call.{lent};
ghost use Rattle.path_adaptive.specs.Call.{adaptive_left};
ghost use Rattle.path_chop.specs.Call.{chop_left};
ghost use Rattle.path_simplify.specs.Call.{simplify_left};
ghost use Rattle.path_splice.specs.Call.{lent as splice_lent, splice_left};
ghost use Rattle.ramikohy.specs.Points.{matrix_of};
ghost use Rattle.ramikohy.specs.Calls.{called, called_by};

// Cuts strokes into steps.
#[unsafe(no_mangle)]
pub extern "C" fn ramikohy_chop(
    points: &[f64],
    starts: &[u32],
    step: f64,
    out_points: &mut [f64],
    out_starts: &mut [u32],
    point_count: &mut usize,
    start_count: &mut usize,
) -> u32
    ensures { called result (point_count.new ∷ start_count.new ∷ []) (lent out_points.new out_starts.new)
        ≡ called_by (chop_left points.now starts.now step out_points.old out_starts.old)
        (point_count.old ∷ start_count.old ∷ []) }
{
    match path_chop::chop(points, starts, step, out_points, out_starts) {
        Ok(answer) => {
            *point_count = answer.points;
            *start_count = answer.starts;
            0
        }
        Err(why) => refusal::number(why),
    }
}

// Joins strokes of vertex numbers that meet end to end.
#[unsafe(no_mangle)]
pub extern "C" fn ramikohy_splice(
    points: &[u32],
    starts: &[u32],
    scratch: &mut [u32],
    out_points: &mut [u32],
    out_starts: &mut [u32],
    point_count: &mut usize,
    start_count: &mut usize,
) -> u32
    ensures { called result (point_count.new ∷ start_count.new ∷ []) (splice_lent scratch.new out_points.new out_starts.new)
        ≡ called_by (splice_left points.now starts.now scratch.old out_points.old out_starts.old)
        (point_count.old ∷ start_count.old ∷ []) }
{
    match path_splice::splice(points, starts, scratch, out_points, out_starts) {
        Ok(answer) => {
            *point_count = answer.points;
            *start_count = answer.starts;
            0
        }
        Err(why) => refusal::number(why),
    }
}

// Halves spans until they are short on the screen.
#[unsafe(no_mangle)]
pub extern "C" fn ramikohy_chop_adaptive(
    points: &[f64],
    starts: &[u32],
    matrix: &[f64; 16],
    width: f64,
    height: f64,
    step: f64,
    tolerance: f64,
    out_points: &mut [f64],
    out_starts: &mut [u32],
    point_count: &mut usize,
    start_count: &mut usize,
    halving_count: &mut usize,
) -> u32
    ensures { called result (point_count.new ∷ start_count.new ∷ halving_count.new ∷ []) (lent out_points.new out_starts.new)
        ≡ called_by (adaptive_left points.now starts.now (matrix_of matrix.now) width height step tolerance out_points.old out_starts.old)
        (point_count.old ∷ start_count.old ∷ halving_count.old ∷ []) }
{
    match path_adaptive::chop_adaptive(
        points,
        starts,
        super::matrix(matrix),
        width,
        height,
        step,
        tolerance,
        out_points,
        out_starts,
    ) {
        Ok(answer) => {
            *point_count = answer.points;
            *start_count = answer.starts;
            *halving_count = answer.halvings;
            0
        }
        Err(why) => refusal::number(why),
    }
}

// Leaves out points that are near enough to a line.
#[unsafe(no_mangle)]
pub extern "C" fn ramikohy_simplify(
    points: &[f64],
    starts: &[u32],
    threshold: f64,
    out_points: &mut [f64],
    out_starts: &mut [u32],
    point_count: &mut usize,
    start_count: &mut usize,
    distance_count: &mut usize,
) -> u32
    ensures { called result (point_count.new ∷ start_count.new ∷ distance_count.new ∷ []) (lent out_points.new out_starts.new)
        ≡ called_by (simplify_left points.now starts.now threshold out_points.old out_starts.old)
        (point_count.old ∷ start_count.old ∷ distance_count.old ∷ []) }
{
    match path_simplify::simplify(points, starts, threshold, out_points, out_starts) {
        Ok(answer) => {
            *point_count = answer.points;
            *start_count = answer.starts;
            *distance_count = answer.distances;
            0
        }
        Err(why) => refusal::number(why),
    }
}
