//! Moves carried out.

ghost use Rattle.std.specs.Prelude.{◌≡◌, ◌+◌, ◌*◌, ◌-◌, ◌≤◌, length, slice_range};
ghost use Rattle.mem_image.specs.Image.{replaced};
ghost use Rattle.st_types.specs.declared.elem.Elem.TheVariants.{Ulint};
ghost use Rattle.st_types.specs.Range.{Fits};
ghost use Rattle.image_moves.specs.Moves.{moved, moved_by, repeated, IsWithin, AreWithin};
ghost use Rattle.image_moves.specs.MoveViews.{move_of, moves_of};

use crate::moves::{Move, Turns};
use mem_image::Image;
use st_types::Elem;

/// A table of addresses: where what an address leads to lies in the new images.
pub trait Relocates {
    ghost use Rattle.std.specs.Prelude.{ℕ, ℤ};

    ghost by: { Self → ℕ → ℤ → ℤ };

    /// The address, as it is kept in the new images; NULL where what is there does not conform to what it is meant for.
    fn relocate(&self, aim: u32, word: i128) -> i128
        ensures value { result ≡ by self.now aim word }
        ensures fits { Fits Ulint result };
}

/// Writes the bytes of the source over those of the image.
fn copy_bytes(source: &Image, from: u32, to: u32, len: u32, image: &mut Image)
    requires source { from + len ≤ length source.now }
    requires target { to + len ≤ length image.old }
    ensures after { image.new ≡ replaced image.old to (slice_range source.now from (from + len)) }
    ensures len { length image.new ≡ length image.old }
{
    image.copy_from(to, source, from, len);
}

/// Carries out the moves from a place of the source to a place of the image.
#[cycle(mover)]
pub fn apply_moves<R: Relocates>(
    moves: &[Move],
    relocation: &R,
    source: &Image,
    from: u32,
    to: u32,
    image: &mut Image,
)
    requires source { from ≤ length source.now }
    requires target { to ≤ length image.old }
    requires within { AreWithin (moves_of moves.now) (length source.now - from) (length image.old - to) }
    ensures after { image.new ≡ moved (R.by relocation.now) source.now (moves_of moves.now) from to image.old }
    ensures len { length image.new ≡ length image.old }
{
    for one in moves {
        apply_move(one, relocation, source, from, to, image);
    }
}

/// Carries out one move.
#[cycle(mover)]
#[tactic(auto, using(crate::specs::MoveViews::move_views))]
fn apply_move<R: Relocates>(
    one: &Move,
    relocation: &R,
    source: &Image,
    from: u32,
    to: u32,
    image: &mut Image,
)
    requires source { from ≤ length source.now }
    requires target { to ≤ length image.old }
    requires within { IsWithin (move_of one.now) (length source.now - from) (length image.old - to) }
    ensures after { image.new ≡ moved_by (R.by relocation.now) source.now (move_of one.now) from to image.old }
    ensures len { length image.new ≡ length image.old }
{
    let _reach = source.len();
    let _room = image.len();
    match one {
        Move::Copy(at, place, len) => copy_bytes(source, from + *at, to + *place, *len, image),
        Move::Address(aim, at, place) => {
            let word = relocation.relocate(*aim, source.read(Elem::Ulint, from + *at));
            image.write(Elem::Ulint, to + *place, word);
        }
        Move::Clear(place) => image.write(Elem::Ulint, to + *place, 0),
        Move::Repeat(turns, moves) => apply_repeated(
            moves.as_slice(),
            relocation,
            source,
            turns,
            from,
            to,
            image,
        ),
    }
}

/// Carries out the same moves again and again.
#[cycle(mover)]
fn apply_repeated<R: Relocates>(
    moves: &[Move],
    relocation: &R,
    source: &Image,
    turns: &Turns,
    from: u32,
    to: u32,
    image: &mut Image,
)
    requires source { from + turns.now.from + turns.now.count * turns.now.far ≤ length source.now }
    requires target { to + turns.now.to + turns.now.count * turns.now.further ≤ length image.old }
    requires within { AreWithin (moves_of moves.now) turns.now.far turns.now.further }
    ensures after { image.new ≡ repeated (moved (R.by relocation.now) source.now (moves_of moves.now)) turns.now.count (from + turns.now.from) (to + turns.now.to) turns.now.far turns.now.further image.old }
    ensures len { length image.new ≡ length image.old }
{
    let _reach = source.len();
    let _room = image.len();
    for turn in 0..turns.count {
        apply_moves(
            moves,
            relocation,
            source,
            from + turns.from + turn * turns.far,
            to + turns.to + turn * turns.further,
            image,
        );
    }
}
