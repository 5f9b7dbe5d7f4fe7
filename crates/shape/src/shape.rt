// A recipe's shape: its width, its two lists, and its items from left to right with the count of values on hand. Nothing of it
// is worked out, and a recipe that is well formed never lacks an operand or a place on hand when it runs.
ghost use Rattle.std.specs.Prelude.{◌≡◌, [], length};
ghost use Rattle.shape.specs.Items.{kind_of, items};
ghost use Rattle.shape.specs.Shape.{shape_from, shape_at, shape_of};
ghost use Rattle.shape.specs.Answers.{verdict, held_verdict, held_for};

use crate::kind::Kind;
use crate::width::limit_of;
use checked::refusal::{Refusal, RefusedAt};

// The limit of a well-formed recipe's width, or why the recipe is not well formed, and where. The width is looked at first.
// A recipe is two lists, as C lends them, and its width is a number: docs/ENTRIES.md names `shape`, and any number and any two
// lists get an answer.
#[tactic(auto, unfolding(crate::specs::Shape::shape_of, crate::specs::Answers::limit_for))]
pub fn shape(width: u64, kinds: &[u8], numbers: &[u64]) -> Result<u64, RefusedAt>
    ensures { verdict result ≡ shape_of width kinds.now numbers.now }
{
    match limit_of(width) {
        Some(limit) => within(limit, kinds, numbers),
        None => Err(Refusal::UnknownWidth.at(0)),
    }
}

// At a limit: the lists' lengths, the count of items, then the items.
#[tactic(auto, using(std::proofs::lemmas::Bool::Decides::nat_tests), unfolding(crate::specs::Shape::shape_at))]
fn within(limit: u64, kinds: &[u8], numbers: &[u64]) -> Result<u64, RefusedAt>
    ensures { verdict result ≡ shape_at limit kinds.now numbers.now }
{
    let count = kinds.len();
    if count != numbers.len() {
        return Err(Refusal::LengthsDiffer.at(0));
    }
    if count == 0 || 256 < count {
        return Err(Refusal::ItemCount.at(0));
    }
    of_items(limit, kinds, numbers)
}

// Item by item: `held` is how many values are on hand before item i. A `zip` of both lists was tried in place of `numbers[i]`:
// the facts of its loop have no place.
fn of_items(limit: u64, kinds: &[u8], numbers: &[u64]) -> Result<u64, RefusedAt>
    requires { length kinds.now ≡ length numbers.now }
    ensures { verdict result ≡ shape_from limit 0 0 (items kinds.now numbers.now) }
{
    let mut held: u64 = 0;
    for (i, kind) in kinds.iter().enumerate() {
        match after(limit, held, *kind, numbers[i]) {
            Ok(left) => {
                held = left;
            }
            Err(refusal) => {
                return Err(refusal.at(i as u64));
            }
        }
    }
    at_end(limit, held, kinds.len() as u64)
}

// How many values are on hand after an item, or its fault. The code is read here, so that `?` passes its refusal on with the
// item's others.
fn after(limit: u64, held: u64, kind: u8, number: u64) -> Result<u64, Refusal>
    ensures { held_verdict result ≡ held_for limit held (kind_of kind) number }
{
    match Kind::try_from(kind)? {
        Kind::Literal => {
            if limit < number {
                return Err(Refusal::LiteralTooLarge);
            }
            if 31 < held {
                return Err(Refusal::HandFull);
            }
            Ok(held + 1)
        }
        Kind::Operation(_) => {
            if number != 0 {
                return Err(Refusal::UnknownKind);
            }
            if held < 2 {
                return Err(Refusal::TooFewOnHand);
            }
            Ok(held - 1)
        }
    }
}

// The end: one value is left.
#[tactic(auto, unfolding(crate::specs::Shape::shape_from))]
fn at_end(limit: u64, held: u64, place: u64) -> Result<u64, RefusedAt>
    ensures { verdict result ≡ shape_from limit place held [] }
{
    match held {
        0 => Err(Refusal::NoneLeft.at(place)),
        1 => Ok(limit),
        _ => Err(Refusal::SeveralLeft.at(place)),
    }
}
