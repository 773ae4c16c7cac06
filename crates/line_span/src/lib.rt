// Points in a row, each shifted as the reference point was, all but that point: what the lines SHC and SHZ share.
//
// `shift_span_of` is one equation with `span_of` of specs/Steps.antt, over the lists that it is lent; proofs/Bridge.antt says that in any world it is `span_in` of specs/Span.antt, which the
// lines are held to. The reference point comes first; refused there, nothing moves. A point beyond the zone is refused in its turn, and the points before it
// stay shifted. That a zone's lists share one length is asked of the caller; nothing is asked of the span, the reference or the state's numbers.
#![tactic(auto)]

ghost use Rattle.std.specs.Prelude.{◌≤◌, false, true, ◌≡◌, length};
ghost use Rattle.line_steps.specs.Loop.{ended, in_zone, points, shift_at, zones};
ghost use Rattle.moves.specs.Move.{is_idle};
ghost use Rattle.line_span.specs.Span.{same_zone};
ghost use Rattle.line_span.specs.Steps.{moved_run, in_row, shift_span, shifted_run, span_of, touched_run};

use answer::Refusal;
use flags::with_bits;
use graphics::{Facts, Vectors, ZonePointer};
use int::wrapping_add;
use moves::{Move, Reference, displaced_in, zp2_move_of};

// ---- in one zone
// One axis's coordinates from start up to end, each moved by so much.
fn add_run(list: &mut [i32], start: usize, end: usize, by: i32)
    requires { (start ≤ end) × (end ≤ length list.old) }
    ensures { list.new ≡ moved_run true by start end list.old }
{
    for x in &mut list[start..end] {
        *x = wrapping_add(*x, by);
    }
}

fn move_run(list: &mut [i32], start: usize, end: usize, moves: bool, by: i32)
    requires { (start ≤ end) × (end ≤ length list.old) }
    ensures { list.new ≡ moved_run moves by start end list.old }
{
    if moves {
        add_run(list, start, end, by);
    }
}

fn touch_run(flags: &mut [u8], start: usize, end: usize, bits: u8)
    requires { (start ≤ end) × (end ≤ length flags.old) }
    ensures { flags.new ≡ touched_run bits start end flags.old }
{
    for flag in &mut flags[start..end] {
        *flag = with_bits(*flag, bits);
    }
}

// Points that are all there: one list after another, so that no point is tested.
fn shift_there(m: Move, start: usize, end: usize, xs: &mut [i32], ys: &mut [i32], flags: &mut [u8])
    requires { (length ys.old ≡ length xs.old) × (length flags.old ≡ length xs.old) × (start ≤ end) × (end ≤ length xs.old) }
    ensures { points xs.new ys.new flags.new ≡ shifted_run m start end (points xs.old ys.old flags.old) }
{
    move_run(xs, start, end, m.moves_x, m.dx);
    move_run(ys, start, end, m.moves_y, m.dy);
    touch_run(flags, start, end, m.touch);
}

// The first point that isn't there is refused, and those before it are shifted.
fn shift_run(
    m: Move,
    start: usize,
    end: usize,
    xs: &mut [i32],
    ys: &mut [i32],
    flags: &mut [u8],
) -> Result<(), Refusal>
    requires { (length ys.old ≡ length xs.old) × (length flags.old ≡ length xs.old) }
    ensures { ended result (points xs.new ys.new flags.new) ≡ in_row (shift_at m) start end (points xs.old ys.old flags.old) }
{
    let size = xs.len();
    if end <= start {
        return Ok(());
    }
    if end <= size {
        shift_there(m, start, end, xs, ys, flags);
        return Ok(());
    }
    if size <= start {
        return Err(Refusal::Point(start as u64));
    }
    shift_there(m, start, size, xs, ys, flags);
    Err(Refusal::Point(size as u64))
}

// By a move that isn't idle: the points before the one that is kept, and those after it.
fn shift_busy_span(
    m: Move,
    keeps: bool,
    kept: u64,
    start: usize,
    end: usize,
    xs: &mut [i32],
    ys: &mut [i32],
    flags: &mut [u8],
) -> Result<(), Refusal>
    requires { (length ys.old ≡ length xs.old) × (length flags.old ≡ length xs.old) × (is_idle m ≡ false) }
    ensures { ended result (points xs.new ys.new flags.new) ≡ shift_span m keeps kept start end (points xs.old ys.old flags.old) }
{
    let at = kept as usize;
    if keeps & (start <= at) & (at < end) {
        shift_run(m, start, at, xs, ys, flags)?;
        shift_run(m, at + 1, end, xs, ys, flags)
    } else {
        shift_run(m, start, end, xs, ys, flags)
    }
}

// An idle move looks at no point, so an end beyond the zone is accepted.
fn shift_span(
    m: Move,
    keeps: bool,
    kept: u64,
    start: usize,
    end: usize,
    xs: &mut [i32],
    ys: &mut [i32],
    flags: &mut [u8],
) -> Result<(), Refusal>
    requires { (length ys.old ≡ length xs.old) × (length flags.old ≡ length xs.old) }
    ensures { ended result (points xs.new ys.new flags.new) ≡ shift_span m keeps kept start end (points xs.old ys.old flags.old) }
{
    if m.is_idle() {
        Ok(())
    } else {
        shift_busy_span(m, keeps, kept, start, end, xs, ys, flags)
    }
}

// ---- in the zone that a pointer names
fn shift_span_in(
    zone: ZonePointer,
    m: Move,
    keeps: bool,
    kept: u64,
    start: usize,
    end: usize,
    gx: &mut [i32],
    gy: &mut [i32],
    gflags: &mut [u8],
    tx: &mut [i32],
    ty: &mut [i32],
    tflags: &mut [u8],
) -> Result<(), Refusal>
    requires { (length gy.old ≡ length gx.old) × (length gflags.old ≡ length gx.old) × (length ty.old ≡ length tx.old) × (length tflags.old ≡ length tx.old) }
    ensures { ended result (zones gx.new gy.new gflags.new tx.new ty.new tflags.new) ≡ in_zone (shift_span m keeps kept start end) (zones gx.old gy.old gflags.old tx.old ty.old tflags.old) zone }
{
    match zone {
        ZonePointer::Glyph => shift_span(m, keeps, kept, start, end, gx, gy, gflags),
        ZonePointer::Twilight => shift_span(m, keeps, kept, start, end, tx, ty, tflags),
    }
}

// ---- as the reference point was
fn same_zone(a: ZonePointer, b: ZonePointer) -> bool
    ensures { result ≡ same_zone a b }
{
    match a {
        ZonePointer::Twilight => b.is_twilight(),
        ZonePointer::Glyph => !b.is_twilight(),
    }
}

pub fn shift_span_of(
    v: Vectors,
    f: Facts,
    zp2: ZonePointer,
    reference: Reference,
    touches: bool,
    start: usize,
    end: usize,
    gox: &[i32],
    goy: &[i32],
    gx: &mut [i32],
    gy: &mut [i32],
    gflags: &mut [u8],
    tox: &[i32],
    toy: &[i32],
    tx: &mut [i32],
    ty: &mut [i32],
    tflags: &mut [u8],
) -> Result<(), Refusal>
    requires { (length goy.now ≡ length gox.now) × (length gy.old ≡ length gx.old) × (length gflags.old ≡ length gx.old) × (length toy.now ≡ length tox.now) × (length ty.old ≡ length tx.old) × (length tflags.old ≡ length tx.old) }
    ensures { ended result (zones gx.new gy.new gflags.new tx.new ty.new tflags.new) ≡ span_of v f zp2 reference touches start end gox.now goy.now tox.now toy.now (zones gx.old gy.old gflags.old tx.old ty.old tflags.old) }
{
    let d = displaced_in(v, reference, gox, goy, gx, gy, tox, toy, tx, ty)?;
    let m = zp2_move_of(v, f, d.dx, d.dy, touches);
    let zone = d.zone;
    let keeps = same_zone(zone, zp2);
    shift_span_in(
        zp2, m, keeps, d.at, start, end, gx, gy, gflags, tx, ty, tflags,
    )
}
