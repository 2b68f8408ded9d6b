// The calls of a script, which has one a line.
ghost use Rattle.std.specs.Prelude.{◌≡◌, ◌<◌, length, codes, MatchOption};
ghost use Rattle.geometry.specs.declared.point.Point.{Point as point};
ghost use Rattle.commands.specs.Scripts.{WritesPoint, Said, SaidAfter};
ghost use Rattle.commands.specs.declared.script.Unread.TheVariants.{NoMemory as no_memory};

use geometry::point::Point;
use std::alloc::{AllocError, AllocFailed, Global};
use tiles::Call;

// Why a script cannot be read.
#[derive(Clone, Copy, PartialEq, Eq, Debug)]
pub enum Unread {
    // The line of this number is no call.
    NoCall(usize),
    NoMemory,
}

impl From<AllocError> for Unread {
    ghost from_gives = { λ _ r. r ≡ no_memory };

    fn from(_e: AllocError) -> Unread {
        Unread::NoMemory
    }
}

impl<T: Drop> From<AllocFailed<T>> for Unread {
    ghost from_gives = { λ _ r. r ≡ no_memory };

    fn from(_e: AllocFailed<T>) -> Unread {
        Unread::from(AllocError)
    }
}

// The point that two words say.
fn point_of(x: &str, y: &str) -> Option<Point>
    ensures { MatchOption result ((p : point) → WritesPoint x.now y.now p → ⊥) (λ p. WritesPoint x.now y.now p) }
{
    let x = x.parse::<u32>().ok()?;
    let y = y.parse::<u32>().ok()?;
    Some(Point { x, y })
}

// The put that the words after `put` say.
fn put_of(words: &[&str]) -> Option<Call<i32>>
    ensures { SaidAfter (codes "put") words.now result }
{
    let [x, y, v] = words else {
        return None;
    };
    let v = v.parse::<i32>().ok()?;
    Some(Call::Put(point_of(x, y)?, v))
}

// The read that the words after `read` say.
fn read_of(words: &[&str]) -> Option<Call<i32>>
    ensures { SaidAfter (codes "read") words.now result }
{
    let [x, y] = words else {
        return None;
    };
    Some(Call::Read(point_of(x, y)?))
}

// A call that takes no values, where no words follow.
fn alone(call: Call<i32>, words: &[&str]) -> Option<Call<i32>>
    ensures { MatchOption result (0 < length words.now) (λ c. (c ≡ call) × (length words.now ≡ 0)) }
{
    words.is_empty().then_some(call)
}

// The call that the words of a line say, if they say one.
pub fn call_of(words: &[&str]) -> Option<Call<i32>>
    ensures { Said words.now result }
{
    let [verb, values @ ..] = words else {
        return None;
    };
    match *verb {
        "put" => put_of(values),
        "read" => read_of(values),
        "begin" => alone(Call::Begin, values),
        "down" => alone(Call::Down, values),
        "up" => alone(Call::Up, values),
        "finish" => alone(Call::Finish, values),
        _ => None,
    }
}

// The call of a line; none of a blank line or a comment.
fn line_call(heap: Global, line: &str, number: usize) -> Result<Option<Call<i32>>, Unread> {
    if line.starts_with('#') {
        return Ok(None);
    }
    let words = line.split_whitespace().collect::<Vec<&str>>(heap)?;
    if words.is_empty() {
        return Ok(None);
    }
    let call = call_of(words.as_slice()).ok_or(Unread::NoCall(number))?;
    Ok(Some(call))
}

// The calls of a script.
pub fn calls_of(heap: Global, text: &str) -> Result<Vec<Call<i32>>, Unread> {
    text.lines()
        .enumerate()
        .filter_map(|(before, line)| line_call(heap, line, before.saturating_add(1)).transpose())
        .try_collect(heap)
}
