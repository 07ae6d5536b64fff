// The search over versions for one quad: the loop of `correlate_quad` of the Rust's ring.rs, one
// version a step.
ghost use Rattle.std.specs.Prelude.{◌≡◌, ◌+◌, ◌<◌, ◌≤◌, length, Ok};
ghost use Rattle.lcr_core.specs.Version.{IsVersion, positions_of};
ghost use Rattle.search.specs.Samples.{Photo};
ghost use Rattle.search.specs.Versions.{no_score, score_by, pose_of, read_of, none_tried, push_of};
ghost use Rattle.search.specs.Versions.{too_small, ended_of, next_tried, step_of, search_of, ScoreRoom};

use hull::points::Quad;
use lcr_core::version::Version;
use lens::straight::Lens;
use marks::correlate::Pose;
use refusal::Refusal;
use transform::Transform;

// What was read of a version.
#[derive(Clone, Copy)]
pub struct Score {
    // 1 to 64
    pub version: u8,
    // the fraction of positions that agree, 0 to 1
    pub agreement: f32,
    // the corner of the quad that position 0 is at, 0 to 3
    pub corner: usize,
    // whether the ring runs backwards round the quad
    pub mirrored: bool,
}

// Scores in version order: the first `many` places of the list, at most 64; the rest is no score.
#[derive(Clone, Copy)]
pub struct Scores {
    pub many: usize,
    pub list: [Score; 64],
}

// A search held between versions: the next version, whether it has ended, the scores so far.
// Kept: what may not change, since `step_of` and theorem `SearchEnds` are about a search that has ended.
#[derive(Drop)]
pub struct Search {
    pub next: u8,
    pub ended: bool,
    pub scores: Scores,
}

// What is searched for.
#[derive(Clone, Copy)]
pub struct Goal {
    pub quad: Quad,
    pub lens: Lens,
    // the greatest version, 1 to 64
    pub most: u8,
    // the quad's outer side, in pixels
    pub span: f32,
}

// What stands in places without a score.
fn no_score() -> Score
    ensures { result ≡ no_score }
{
    Score {
        version: 0,
        agreement: 0.0,
        corner: 0,
        mirrored: false,
    }
}

// The best pose of a version as its score.
fn score_by(version: u8, best: Pose) -> Score
    ensures { result ≡ score_by version best }
{
    Score {
        version: version,
        agreement: best.score,
        corner: best.corner,
        mirrored: best.reversed,
    }
}

// The best pose of lumas, as many as a version has positions.
fn pose_of(version: u8, lumas: &[f32]) -> Result<Pose, Refusal>
    requires version { IsVersion version }
    requires lumas_len { length lumas.now ≡ positions_of version }
    ensures { result ≡ Ok (pose_of version lumas.now) }
{
    let mut marks = [false; 1112];
    let n = lumas.len();
    marks::classify::classify(version as u32, lumas, &mut marks[..n])?;
    let c = marks::correlate::correlate(version as u32, &marks[..n])?;
    Ok(c.best)
}

// The ring of a version read under a transform: lumas, marks, the best pose.
fn read_ring(gray: &[u8], w: usize, h: usize, t: Transform, version: u8) -> Score
    requires photo { Photo gray.now w h }
    requires version { IsVersion version }
    ensures { result ≡ read_of gray.now w h t version }
{
    let Ok(v) = Version::new(version as u32) else {
        return no_score();
    };
    let mut lumas = [0.0f32; 1112];
    let n = v.positions();
    crate::lumas::ring_lumas(gray, w, h, t, v, &mut lumas[..n]);
    let Ok(best) = pose_of(version, &lumas[..n]) else {
        return no_score();
    };
    score_by(version, best)
}

// A search with no version tried yet.
pub fn start() -> Search
    ensures { result ≡ none_tried }
{
    let none = no_score();
    let list = [none; 64];
    Search {
        next: 1,
        ended: false,
        scores: Scores {
            many: 0,
            list: list,
        },
    }
}

// One score more.
fn push(s: Scores, x: Score) -> Scores
    requires { s.many < 64 }
    ensures { result ≡ push_of s x }
{
    let many = s.many;
    let mut list = s.list;
    list[many] = x;
    Scores {
        many: many + 1,
        list: list,
    }
}

// Whether a version's pitch is under 2 pixels.
fn too_small(span: f32, version: u8) -> bool
    ensures { result ≡ too_small span version }
{
    span / (Version::side_of(version) as f32 + 8.0) < 2.0
}

// The search ended.
fn ended(s: Search) -> Search
    ensures { result ≡ ended_of s }
{
    let scores = s.scores;
    Search {
        next: s.next,
        ended: true,
        scores: scores,
    }
}

// The version's score put in, or the version skipped.
fn tried(gray: &[u8], w: usize, h: usize, g: Goal, s: Search) -> Search
    requires photo { Photo gray.now w h }
    requires version { IsVersion s.next }
    requires many_bound { s.scores.many < 64 }
    ensures { result ≡ next_tried gray.now w h g s }
{
    let scores = s.scores;
    let version = s.next;
    let side = Version::side_of(version);
    let Some(t) = crate::geometry::ring_transform(g.quad, side, g.lens) else {
        return Search {
            next: version + 1,
            ended: false,
            scores: scores,
        };
    };
    let more = push(scores, read_ring(gray, w, h, t, version));
    Search {
        next: version + 1,
        ended: false,
        scores: more,
    }
}

// One step: one version of the quad. A step on an ended search changes nothing.
fn step(gray: &[u8], w: usize, h: usize, g: Goal, s: Search) -> Search
    requires photo { Photo gray.now w h }
    requires score_room { ScoreRoom s }
    requires most_bound { g.most ≤ 64 }
    ensures answer { result ≡ step_of gray.now w h g s }
    ensures held { ScoreRoom result }
{
    if s.ended {
        return s;
    }
    if g.most < s.next {
        return ended(s);
    }
    if too_small(g.span, s.next) {
        return ended(s);
    }
    tried(gray, w, h, g, s)
}

// The search run to its end: 65 steps are enough for 64 versions, and one that has ended stays.
pub fn run(gray: &[u8], w: usize, h: usize, g: Goal) -> Search
    requires photo { Photo gray.now w h }
    requires most_bound { g.most ≤ 64 }
    ensures answer { result ≡ search_of gray.now w h g }
    ensures held { ScoreRoom result }
{
    let mut s = start();
    for k in 0..=Version::MAX as usize {
        if s.ended {
            return s;
        }
        s = step(gray, w, h, g, s);
    }
    s
}
