// A sub-pass of a stage: the points of one parity on every line of a direction, row by row through the plane.
ghost use Rattle.std.specs.Prelude.{◌≡◌, ℕ, ◌+◌, ◌-◌, ◌*◌, ◌<◌, ◌≤◌, true, ◌⊎◌, length, if◌then◌else◌};
ghost use Rattle.geometry.specs.declared.direction.Direction.TheVariants.{Row, Column};
ghost use Rattle.lifting.specs.Meanings.{meant};
ghost use Rattle.lifting.specs.Passes.{has_parity};
ghost use Rattle.lifting.specs.Runs.{end_of, changed, put_at, run_of, sweep_of, Carries, Small, InRow, PastRow, Passes, PassesBoth, inner, inner_count, inner_end};

use breaks::flags::Flags;
use breaks::run::Run;
use breaks::source::BreakSource;
use breaks::wholeness::Wholeness;
use geometry::direction::Direction;
use geometry::lattice::Lattice;
use geometry::point::Point;
use samples::sample::Sample;
use samples::step::Step;

mod parts;
pub mod stage;

use parts::{LatticeRow, Track};

// What a source says of the gaps of a row's points. A frame is at most 512 points wide, and a stage has no heap.
type RowFlags = [Flags; 512];

// The end that a gap leaves of the sample beyond it: the one place where a stage asks what a source said. A match, so that a third
// answer needs an arm here.
fn end<K: Sample>(x: K, w: Wholeness) -> Option<K>
    ensures { result ≡ end_of w x }
{
    match w {
        Wholeness::Broken => None,
        Wholeness::Whole => Some(x),
    }
}

// How far away an end is; 0 where there is none.
fn reach(there: bool, by: usize) -> usize
    ensures { result ≡ (if there then by else 0) }
{
    if there { by } else { 0 }
}

// A sub-pass of a stage, with the step and the source that it asks.
// ODD: odd points, by the forecast; else even points, by the correction. JOIN: joined; else taken. Both are known when it is compiled.
// That the lattice is small beside the plane is asked at each call, since the plane is lent at each.
#[derive(Drop)]
struct SubPass<'a, S, B, const ODD: bool, const JOIN: bool> {
    step: &'a S,
    source: &'a B,
    resolution: u32,
}

impl<S: Step, B: BreakSource, const ODD: bool, const JOIN: bool> SubPass<'_, S, B, ODD, JOIN> {
    // What becomes of a sample, from its two ends.
    fn change(&self, x: S::Sample, a: Option<S::Sample>, b: Option<S::Sample>) -> S::Sample
        ensures { result ≡ changed (sweep_of S.Sample.Sample S.Step B.BreakSource self.now) x a b }
    {
        let v = if ODD {
            self.step.forecast(a, b)
        } else {
            self.step.correction(a, b)
        };
        if JOIN { x.join(v) } else { x.take(v) }
    }

    // Point k of a track, from the samples at its two ends.
    fn lift_point(&self, flags: Flags, track: Track, k: usize, plane: &mut [S::Sample])
        requires { track.here + k * track.stride + track.forth < length plane.old }
        ensures { plane.new ≡ put_at (sweep_of S.Sample.Sample S.Step B.BreakSource self.now) flags track k plane.old }
    {
        let at = track.here + k * track.stride;
        let a = end(plane[at - track.back], flags.before);
        let b = end(plane[at + track.forth], flags.after);
        plane[at] = self.change(plane[at], a, b);
    }

    // The points of a track, one for each of the flags.
    #[tactic(auto, using(crate::proofs::RunLaws::run_more), unfolding(crate::specs::Runs::run_of))]
    fn lift_run(&self, flags: &[Flags], track: Track, plane: &mut [S::Sample])
        requires { (k : ℕ) → k < length flags.now → track.here + k * track.stride + track.forth < length plane.old }
        ensures { plane.new ≡ run_of (sweep_of S.Sample.Sample S.Step B.BreakSource self.now) flags.now track (length flags.now) plane.old }
    {
        for (k, f) in flags.iter().enumerate() {
            self.lift_point(*f, track, k, plane);
        }
    }

    // A run of points: what the source says of their gaps, and then the points.
    fn lift_part(&self, run: Run, track: Track, plane: &mut [S::Sample], flags: &mut [Flags])
        requires { (k : ℕ) → k < length flags.old → track.here + k * track.stride + track.forth < length plane.old }
        ensures { Carries (sweep_of S.Sample.Sample S.Step B.BreakSource self.now) run (length flags.old) track plane.old plane.new }
    {
        self.source.fill(run, flags);
        self.lift_run(flags, track, plane);
    }

    // A row of a column sub-pass: every point of the row, each from the points above and below it.
    fn column_row(&self, row: LatticeRow, plane: &mut [S::Sample], flags: &mut RowFlags)
        requires small { Small row.lattice (length plane.old) }
        requires parity { has_parity ODD (row.lattice.top + row.j) ≡ true }
        ensures { PastRow (sweep_of S.Sample.Sample S.Step B.BreakSource self.now) row Column 0 plane.old plane.new }
    {
        let l = row.lattice;
        let run = Run {
            resolution: self.resolution,
            direction: Direction::Column,
            first: Point {
                x: l.left,
                y: l.top + row.j,
            },
            step: 1,
        };
        let track = Track {
            here: l.first + row.j as usize * l.down,
            back: reach(row.j > 0, l.down),
            forth: reach(row.j + 1 < l.rows, l.down),
            stride: l.across,
        };
        self.lift_part(run, track, plane, &mut flags[..l.columns as usize]);
    }

    // n points of a row in a row sub-pass: columns i, i + 2, .. counted from the left, each from the points left and right of it.
    // Either all have points on both sides, or there is one.
    fn row_part(
        &self,
        row: LatticeRow,
        i: u32,
        n: usize,
        plane: &mut [S::Sample],
        flags: &mut RowFlags,
    )
        requires small { Small row.lattice (length plane.old) }
        requires near { i ≤ 514 }
        requires points { ((0 < i) × (2 * n ≤ row.lattice.columns - i)) ⊎ ((n ≡ 1) × (i < row.lattice.columns)) }
        requires parity { has_parity ODD (row.lattice.left + i) ≡ true }
        ensures { InRow (sweep_of S.Sample.Sample S.Step B.BreakSource self.now) row i (i + 2 * n) plane.old plane.new }
    {
        let l = row.lattice;
        let run = Run {
            resolution: self.resolution,
            direction: Direction::Row,
            first: Point {
                x: l.left + i,
                y: l.top + row.j,
            },
            step: 2,
        };
        let track = Track {
            here: l.first + row.j as usize * l.down + i as usize * l.across,
            back: reach(i > 0, l.across),
            forth: reach(i + 1 < l.columns, l.across),
            stride: 2 * l.across,
        };
        self.lift_part(run, track, plane, &mut flags[..n]);
    }

    // A row up to the first column of the parity that has a point to its left.
    fn row_first(&self, row: LatticeRow, plane: &mut [S::Sample], flags: &mut RowFlags)
        requires { Small row.lattice (length plane.old) }
        ensures { InRow (sweep_of S.Sample.Sample S.Step B.BreakSource self.now) row 0 (inner ODD row.lattice) plane.old plane.new }
    {
        let l = row.lattice;
        if is_parity::<ODD>(l.left) && l.columns > 0 {
            self.row_part(row, 0, 1, plane, flags);
        }
    }

    // The columns of the parity in a row that have points on both sides.
    fn row_middle(&self, row: LatticeRow, plane: &mut [S::Sample], flags: &mut RowFlags)
        requires { Small row.lattice (length plane.old) }
        ensures { InRow (sweep_of S.Sample.Sample S.Step B.BreakSource self.now) row (inner ODD row.lattice) (inner_end ODD row.lattice) plane.old plane.new }
    {
        let l = row.lattice;
        let n = inner_count::<ODD>(l) as usize;
        self.row_part(row, inner_of::<ODD>(l), n, plane, flags);
    }

    // The last column of a row, where it has the parity and a point to its left: it has no point to its right.
    fn row_last(&self, row: LatticeRow, plane: &mut [S::Sample], flags: &mut RowFlags)
        requires { Small row.lattice (length plane.old) }
        ensures { PastRow (sweep_of S.Sample.Sample S.Step B.BreakSource self.now) row Row (inner_end ODD row.lattice) plane.old plane.new }
    {
        let l = row.lattice;
        let i = inner_of::<ODD>(l) + 2 * inner_count::<ODD>(l);
        if i + 1 == l.columns {
            self.row_part(row, i, 1, plane, flags);
        }
    }

    // A row of a sub-pass.
    fn lift_row(&self, d: Direction, row: LatticeRow, plane: &mut [S::Sample], flags: &mut RowFlags)
        requires { Small row.lattice (length plane.old) }
        ensures { PastRow (sweep_of S.Sample.Sample S.Step B.BreakSource self.now) row d 0 plane.old plane.new }
    {
        match d {
            Direction::Row => {
                self.row_first(row, plane, flags);
                self.row_middle(row, plane, flags);
                self.row_last(row, plane, flags);
            }
            Direction::Column => {
                if is_parity::<ODD>(row.lattice.top + row.j) {
                    self.column_row(row, plane, flags);
                }
            }
        }
    }

    // Every row.
    fn lift_rows(&self, d: Direction, lattice: Lattice, plane: &mut [S::Sample])
        requires { Small lattice (length plane.old) }
        ensures { Passes (sweep_of S.Sample.Sample S.Step B.BreakSource self.now) lattice d plane.old plane.new }
    {
        let mut flags: RowFlags = [Flags::default(); 512];
        for j in 0..lattice.rows {
            self.lift_row(d, LatticeRow { lattice, j }, plane, &mut flags);
        }
    }
}

// Whether a coordinate is one of the sub-pass.
fn is_parity<const ODD: bool>(t: u32) -> bool
    ensures { result ≡ has_parity ODD t }
{
    t % 2 == ODD as u32
}

// The first column of the parity that has a point to its left, counted from the left.
fn inner_of<const ODD: bool>(l: Lattice) -> u32
    ensures { result ≡ inner ODD l }
{
    if is_parity::<ODD>(l.left) { 2 } else { 1 }
}

// How many columns of the parity have points on both sides.
fn inner_count<const ODD: bool>(l: Lattice) -> u32
    ensures { result ≡ inner_count ODD l }
{
    l.columns.saturating_sub(inner_of::<ODD>(l)) / 2
}

// Both parities on every line of a direction: the points of the first take, then those of the second join. SECOND is not FIRST; a const
// argument cannot be computed from another.
fn lift_both<S: Step, B: BreakSource, const FIRST: bool, const SECOND: bool>(
    step: &S,
    source: &B,
    resolution: u32,
    d: Direction,
    lattice: Lattice,
    plane: &mut [S::Sample],
)
    requires { Small lattice (length plane.old) }
    ensures { PassesBoth (meant S.Sample.Sample.kind (S.Step.rule step.now)) (B.BreakSource.broken source.now) resolution d FIRST SECOND lattice plane.old plane.new }
{
    SubPass::<S, B, FIRST, false> {
        step,
        source,
        resolution,
    }
    .lift_rows(d, lattice, plane);
    SubPass::<S, B, SECOND, true> {
        step,
        source,
        resolution,
    }
    .lift_rows(d, lattice, plane);
}
